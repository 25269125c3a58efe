use crate::weights::Weights;
use places::PlaceSet;

/// One transition of a chart: its input weights, its output weights and the places that inhibit it.
#[derive(Clone, Copy, Debug, PartialEq, Eq)]
pub struct ChartRow {
    inputs: Weights,
    outputs: Weights,
    inhibitors: PlaceSet,
}

mod closing;
mod methods;
