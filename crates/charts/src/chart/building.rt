ghost use Rattle.std.specs.Borrow.{follows_so, sem};
ghost use Rattle.std.specs.Prelude.{◌≡◌, true, is_some};
ghost use Rattle.names.specs.Meanings.{number_of};
ghost use Rattle.std.specs.Option.{ghost_name_of as name_of, option_map};
ghost use Rattle.charts.specs.Charts.{chart_view};
ghost use Rattle.charts.specs.Refusals.{unless_refused};
ghost use Rattle.charts.specs.Rows.{row_view};
ghost use Rattle.charts.specs.Views.{TransitionEntry, closed_as, declared_as, empty_view, opened_as, with_closed, with_new_place, with_open, with_row};
ghost use Rattle.charts.specs.contracts.chart.Chart.{the_row as chart-row};
ghost use Rattle.charts.specs.contracts.row.ChartRow.{the_row as row-row};

use super::*;
use crate::ChartRefusal;
use crate::row::ChartRow;
use names::Name;

impl Chart {
    /// The chart with nothing in it.
    pub fn new() -> Chart
        ensures { chart_view result ≡ empty_view }
    {
        Chart {
            places: PlaceTable::new(),
            transitions: TransitionTable::new(),
            opened: None,
        }
    }

    /// Declares a place with its marking and gives its number; or says why not.
    pub fn declare_place(&mut self, name: Name, marking: u8) -> Result<u8, ChartRefusal>
        ensures result { result ≡ declared_as (chart_view self.old) (number_of name) marking }
        ensures after { chart_view self.new ≡ unless_refused result (chart_view self.old) (with_new_place (chart_view self.old) (number_of name) marking) }
    {
        let place = self.places.check(name, marking)?;
        self.add_place(name, marking);
        Ok(place)
    }

    /// Opens a transition, whose row is empty, and gives the number that it will have; or says why not. A transition
    /// that is still open is given up.
    pub fn open_transition(&mut self, name: Name, label: Name) -> Result<u8, ChartRefusal>
        ensures result { result ≡ opened_as (chart_view self.old) (number_of name) }
        ensures after { chart_view self.new ≡ unless_refused result (chart_view self.old) (with_open (chart_view self.old) (number_of name) (number_of label)) }
    {
        if self.transitions.has(name) {
            return Err(ChartRefusal::DeclaredAgain);
        }
        let t = self.transitions.len();
        if t > 31 {
            return Err(ChartRefusal::TooManyTransitions);
        }
        self.start(name, label);
        Ok(t)
    }

    /// Lends the row of the open transition, to be changed; none where none is open.
    pub fn open_row(&mut self) -> Option<&mut ChartRow>
        ensures* follows { sem 𝓛 (follows_so chart-row row-row self.entry.ghost_name (name_of result) (λ w n. (is_some result ≡ true → chart_view n ≡ with_row (chart_view self.old) (row_view w))) (λ n. n ≡ self.old)) }
        ensures value { option_map (λ x. row_view x.now) result ≡ option_map (λ (e : TransitionEntry). e.row) (chart_view self.old).opened }
    {
        self.lend_opened()
    }

    /// Closes the open transition and gives its number; or says why not.
    pub fn close_transition(&mut self) -> Result<u8, ChartRefusal>
        ensures result { result ≡ closed_as (chart_view self.old) }
        ensures after { chart_view self.new ≡ unless_refused result (chart_view self.old) (with_closed (chart_view self.old)) }
    {
        let t = self.check_open()?;
        self.finish();
        Ok(t)
    }
}

impl Default for Chart {
    ghost is_default = { λ c. chart_view c ≡ empty_view };

    fn default() -> Self {
        Chart::new()
    }
}
