//! The rows of a net.
ghost use Rattle.std.specs.Prelude.{◌≡◌, ◌≤◌};
ghost use Rattle.nets.specs.Copies.{RowOf, RowsOf};
ghost use Rattle.nets.specs.Rows.{tabled, InputsKept, LabelsKept, OutputsKept};

use crate::Net;
use crate::row::Row;
use std::array;

/// The row of a transition.
fn row_of<N: Net>(net: &N, t: u8) -> Row
    ensures { RowOf (N.Net.meaning net.now) t result }
{
    Row {
        label: net.label(t),
        inputs: array::from_fn(|p| net.input(t, p as u8)),
        outputs: array::from_fn(|p| net.output(t, p as u8)),
        inhibitors: array::from_fn(|p| net.inhibits(t, p as u8)),
    }
}

/// A row for each number below 32, the transitions first.
fn all_rows<N: Net>(net: &N) -> [Row; 32]
    ensures { RowsOf (N.Net.meaning net.now) result }
{
    array::from_fn(|t| row_of(net, t as u8))
}

/// The rows of a net, as a table of its places and transitions keeps them.
pub(crate) fn rows_of<N: Net>(net: &N, places: u8, transitions: u8) -> [Row; 32]
    requires places { places ≡ (N.Net.meaning net.now).places }
    requires transitions { transitions ≡ (N.Net.meaning net.now).transitions }
    ensures same { tabled places transitions result ≡ N.Net.meaning net.now }
    ensures few { (places ≤ 16) × (transitions ≤ 32) }
    ensures inputs { InputsKept places transitions result }
    ensures outputs { OutputsKept places transitions result }
    ensures labels { LabelsKept places transitions result }
{
    all_rows(net)
}
