//! One side of a verdict.
ghost use Rattle.std.specs.Prelude.{◌≡◌, length};
ghost use Rattle.verdict.specs.Relating.{pairs_of, Topped};

use crate::pairs::Pairs;
use nets::Table;
use places::Side;

/// One side of a verdict: the net that moves, the other net that answers, and the pairs from the one to the other; with
/// the highest places of the pairs, which are worked out once.
#[derive(Clone, Copy)]
pub struct Half<'a> {
    pub side: Side,
    pub mover: &'a Table,
    pub other: &'a Table,
    pub pairs: Pairs<'a>,
    pub tops: [u8; 16],
    ghost wide: { length tops ≡ 16 },
    ghost topped: { Topped (pairs_of pairs) tops },
}

mod making;
