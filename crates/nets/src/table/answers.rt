ghost use Rattle.std.specs.Prelude.{◌≡◌, ◌<◌, ◌&&◌, true, false, nat_lt, MatchOption};
ghost use Rattle.nets.specs.Rows.{row_at};
ghost use Rattle.nets.specs.Tables.{table_limits, table_meaning};

use super::*;
use crate::Net;
use crate::copy::rows_of;
use crate::row::Row;

impl Table {
    /// The plain copy of a net.
    pub fn of<N: Net>(net: &N) -> Table
        ensures { table_meaning result ≡ N.Net.meaning net.now }
    {
        let places = net.places();
        let transitions = net.transitions();
        let rows = rows_of(net, places, transitions);
        Table {
            places,
            transitions,
            rows,
        }
    }

    /// The row of the transition `t`; none where there is no such transition.
    fn row(&self, t: u8) -> Option<&Row>
        ensures { MatchOption result (nat_lt t self.now.transitions ≡ false) (λ r. (nat_lt t self.now.transitions ≡ true) × (r.now ≡ row_at self.now.rows t)) }
    {
        self.rows[..self.transitions as usize].get(t as usize)
    }

    /// The row of the transition `t`, where there is such a transition, and a place `p`.
    fn row_over(&self, t: u8, p: u8) -> Option<&Row>
        ensures { MatchOption result ((nat_lt t self.now.transitions && nat_lt p self.now.places) ≡ false) (λ r. ((nat_lt t self.now.transitions && nat_lt p self.now.places) ≡ true) × (p < 16) × (r.now ≡ row_at self.now.rows t)) }
    {
        self.row(t).filter(|_| p < self.places)
    }
}

impl Net for Table {
    ghost meaning = { table_meaning };

    ghost limits = { table_limits };

    fn places(&self) -> u8 {
        self.places
    }

    fn transitions(&self) -> u8 {
        self.transitions
    }

    fn label(&self, t: u8) -> u64 {
        self.row(t).map_or(0, |row| row.label)
    }

    fn input(&self, t: u8, p: u8) -> u8 {
        self.row_over(t, p).map_or(0, |row| row.inputs[p as usize])
    }

    fn output(&self, t: u8, p: u8) -> u8 {
        self.row_over(t, p).map_or(0, |row| row.outputs[p as usize])
    }

    fn inhibits(&self, t: u8, p: u8) -> bool {
        self.row_over(t, p)
            .is_some_and(|row| row.inhibitors[p as usize])
    }
}
