//! Whether a row may be that of a transition.
ghost use Rattle.std.specs.Prelude.{◌≡◌, ◌||◌, nat_lt};
ghost use Rattle.charts.specs.Rows.{declared_only, empty_at, row_view, weights_of};
ghost use Rattle.charts.specs.Views.{row_closed_as, row_weights, sum_checked_as};

use super::*;
use crate::{ChartRefusal, Role};
use nets::LEAST_SUM;

impl ChartRow {
    /// Whether the row has neither a weight nor an inhibitor at a place.
    fn is_empty_at(&self, p: u8) -> bool
        ensures { result ≡ empty_at (row_view self.now) p }
    {
        self.input(p) == 0 && self.output(p) == 0 && !self.inhibits(p)
    }

    /// Whether a place is one of the first, or the row has nothing there.
    fn is_declared_at(&self, places: u8, p: u8) -> bool
        ensures { result ≡ (nat_lt p places || empty_at (row_view self.now) p) }
    {
        p < places || self.is_empty_at(p)
    }

    /// Whether the row has weights and inhibitors only at the first places.
    #[tactic(auto, unfolding(crate::specs::Rows::empty_from))]
    fn is_declared(&self, places: u8) -> bool
        ensures { result ≡ declared_only places (row_view self.now) }
    {
        (0..16).all(|p| self.is_declared_at(places, p))
    }

    /// The weights of a role.
    fn weights(&self, role: Role) -> &Weights
        ensures { weights_of result.now ≡ row_weights (row_view self.now) role }
    {
        match role {
            Role::Input => &self.inputs,
            Role::Output => &self.outputs,
        }
    }

    /// Whether the weights of a role add up to enough.
    fn check_sum(&self, role: Role) -> Result<(), ChartRefusal>
        ensures { result ≡ sum_checked_as role (row_view self.now) }
    {
        (self.weights(role).total() >= LEAST_SUM)
            .then_some(())
            .ok_or(ChartRefusal::Sum(role))
    }

    /// Gives the number of the transition that the row is closed as, or says why it is not.
    pub(crate) fn check(&self, places: u8, t: u8) -> Result<u8, ChartRefusal>
        ensures { result ≡ row_closed_as places t (row_view self.now) }
    {
        if !self.is_declared(places) {
            return Err(ChartRefusal::NotDeclared);
        }
        self.check_sum(Role::Input)?;
        self.check_sum(Role::Output)?;
        Ok(t)
    }
}
