use crate::row::ChartRow;
use names::Name;

/// The open transition: its name, its label, and its row as far as it has come.
#[derive(Clone, Copy)]
pub(crate) struct Opened {
    pub(crate) name: Name,
    pub(crate) label: Name,
    pub(crate) row: ChartRow,
}
