ghost use Rattle.charts.specs.Charts.{chart_meaning};
ghost use Rattle.charts.specs.Laws.{chart_limits};

use super::*;
use nets::Net;

impl Net for Chart {
    ghost meaning = { chart_meaning };

    ghost limits = { chart_limits };

    fn places(&self) -> u8 {
        self.places.len()
    }

    fn transitions(&self) -> u8 {
        self.transitions.len()
    }

    fn label(&self, t: u8) -> u64 {
        self.transitions.label(t)
    }

    fn input(&self, t: u8, p: u8) -> u8 {
        self.transitions.row(t).map_or(0, |row| row.input(p))
    }

    fn output(&self, t: u8, p: u8) -> u8 {
        self.transitions.row(t).map_or(0, |row| row.output(p))
    }

    fn inhibits(&self, t: u8, p: u8) -> bool {
        self.transitions.row(t).is_some_and(|row| row.inhibits(p))
    }
}
