ghost use Rattle.std.specs.Prelude.{◌≤◌};
ghost use Rattle.nets.specs.Rows.{InputsKept, LabelsKept, OutputsKept};

use crate::row::Row;

/// A net as a plain table.
// An array with the number of its rows beside it: a table is copied as a plain value, and asks for no memory.
#[derive(Clone, Copy, Debug, PartialEq, Eq)]
pub struct Table {
    places: u8,
    transitions: u8,
    rows: [Row; 32],
    ghost narrow: { places ≤ 16 },
    ghost low: { transitions ≤ 32 },
    ghost takes: { InputsKept places transitions rows },
    ghost gives: { OutputsKept places transitions rows },
    ghost labelled: { LabelsKept places transitions rows },
}

mod answers;
