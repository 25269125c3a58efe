ghost use Rattle.std.specs.Prelude.{◌≡◌};
ghost use Rattle.charts.specs.Rows.{added_as, empty_row, inhibited_as, row_view, with_inhibitor, with_input, with_output};
ghost use Rattle.charts.specs.Refusals.{unless_refused};

use super::*;
use crate::RowRefusal;

impl ChartRow {
    /// A row with nothing in it.
    pub fn new() -> ChartRow
        ensures { row_view result ≡ empty_row }
    {
        ChartRow {
            inputs: Weights::new(),
            outputs: Weights::new(),
            inhibitors: PlaceSet::new(),
        }
    }

    // `input`, `output`, `add_input` and `add_output` are one line each over `Weights`, and say the role in their names: a
    // parameter for the role would be no plainer, since each caller writes one fixed role.

    /// The input weight at `place`, 0 above 15.
    pub fn input(&self, place: u8) -> u8
        ensures { result ≡ (row_view self.now).inputs place }
    {
        self.inputs.at(place)
    }

    /// The output weight at `place`, 0 above 15.
    pub fn output(&self, place: u8) -> u8
        ensures { result ≡ (row_view self.now).outputs place }
    {
        self.outputs.at(place)
    }

    /// Whether `place` inhibits; none above 15 does.
    pub fn inhibits(&self, place: u8) -> bool
        ensures { result ≡ (row_view self.now).inhibitors place }
    {
        self.inhibitors.contains(place)
    }

    /// Makes `place` an input place with this weight, or says why not.
    pub fn add_input(&mut self, place: u8, weight: u8) -> Result<(), RowRefusal>
        ensures result { result ≡ added_as (row_view self.old).inputs place weight }
        ensures after { row_view self.new ≡ unless_refused result (row_view self.old) (with_input (row_view self.old) place weight) }
    {
        self.inputs.add(place, weight)
    }

    /// Makes `place` an output place with this weight, or says why not.
    pub fn add_output(&mut self, place: u8, weight: u8) -> Result<(), RowRefusal>
        ensures result { result ≡ added_as (row_view self.old).outputs place weight }
        ensures after { row_view self.new ≡ unless_refused result (row_view self.old) (with_output (row_view self.old) place weight) }
    {
        self.outputs.add(place, weight)
    }

    /// Makes `place` an inhibiting place, or says why not.
    pub fn add_inhibitor(&mut self, place: u8) -> Result<(), RowRefusal>
        ensures result { result ≡ inhibited_as (row_view self.old).inhibitors place }
        ensures after { row_view self.new ≡ unless_refused result (row_view self.old) (with_inhibitor (row_view self.old) place) }
    {
        if place > 15 {
            return Err(RowRefusal::NoSuchPlace);
        }
        if self.inhibitors.contains(place) {
            return Err(RowRefusal::Repeated);
        }
        self.inhibitors.insert(place);
        Ok(())
    }
}

impl Default for ChartRow {
    ghost is_default = { λ r. row_view r ≡ empty_row };

    fn default() -> Self {
        ChartRow::new()
    }
}
