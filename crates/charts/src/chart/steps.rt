//! The steps of the building calls.
ghost use Rattle.std.specs.Borrow.{follows_so, sem};
ghost use Rattle.std.specs.Prelude.{◌≡◌, ◌<◌, true, false, length, is_some, is_ok};
ghost use Rattle.names.specs.Meanings.{number_of};
ghost use Rattle.std.specs.Option.{ghost_name_of as name_of, option_map};
ghost use Rattle.charts.specs.Charts.{chart_view};
ghost use Rattle.charts.specs.Naming.{has_name};
ghost use Rattle.charts.specs.Rows.{row_view};
ghost use Rattle.charts.specs.Views.{TransitionEntry, closed_as, declared_as, transition_names, with_closed, with_new_place, with_open, with_row};
ghost use Rattle.charts.specs.contracts.chart.Chart.{the_row as chart-row};
ghost use Rattle.charts.specs.contracts.row.ChartRow.{the_row as row-row};

use super::*;
use crate::row::ChartRow;
use crate::{ChartRefusal, Role};
use names::Name;

impl Chart {
    /// Puts a place behind the last.
    pub(super) fn add_place(&mut self, name: Name, marking: u8)
        requires { is_ok (declared_as (chart_view self.old) (number_of name) marking) ≡ true }
        ensures { chart_view self.new ≡ with_new_place (chart_view self.old) (number_of name) marking }
    {
        self.places.push(name, marking);
    }

    /// Opens a transition, with an empty row.
    pub(super) fn start(&mut self, name: Name, label: Name)
        requires room { length (chart_view self.old).transitions < 32 }
        requires new { has_name (number_of name) (transition_names (chart_view self.old)) ≡ false }
        ensures { chart_view self.new ≡ with_open (chart_view self.old) (number_of name) (number_of label) }
    {
        self.opened = Some(Opened {
            name,
            label,
            row: ChartRow::new(),
        });
    }

    /// The number that the open transition gets when it is closed, or why it is not closed.
    pub(super) fn check_open(&self) -> Result<u8, ChartRefusal>
        ensures { result ≡ closed_as (chart_view self.now) }
    {
        let opened = self.opened.ok_or(ChartRefusal::Sum(Role::Input))?;
        opened.row.check(self.places.len(), self.transitions.len())
    }

    /// Closes the open transition.
    pub(super) fn finish(&mut self)
        requires { is_ok (closed_as (chart_view self.old)) ≡ true }
        ensures { chart_view self.new ≡ with_closed (chart_view self.old) }
    {
        if let Some(opened) = self.opened.take() {
            self.transitions.push(opened);
        }
    }

    /// Lends the row of the open transition, where one is open.
    pub(super) fn lend_opened(&mut self) -> Option<&mut ChartRow>
        ensures* follows { sem 𝓛 (follows_so chart-row row-row self.entry.ghost_name (name_of result) (λ w n. (is_some result ≡ true → chart_view n ≡ with_row (chart_view self.old) (row_view w))) (λ n. n ≡ self.old)) }
        ensures value { option_map (λ x. row_view x.now) result ≡ option_map (λ (e : TransitionEntry). e.row) (chart_view self.old).opened }
    {
        // By `as_mut` with `map` or `?` the goal of `follows` is left open, as `⊥ × ..`.
        match &mut self.opened {
            Some(opened) => Some(&mut opened.row),
            None => None,
        }
    }
}
