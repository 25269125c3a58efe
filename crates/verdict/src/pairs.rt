//! The relation without its absent pairs, from either side.
ghost use Rattle.std.specs.Prelude.{◌≡◌, ◌+◌, if◌then◌else◌, fold};
ghost use Rattle.std.specs.List.{range_with_len};
ghost use Rattle.verdict.specs.Relating.{pairs_of, Topped};

use places::{Relation, Side};
use std::array;

/// The pairs of a relation whose left place is below `left` and whose right place is below `right`, from the side that
/// moves to the other.
#[derive(Clone, Copy)]
pub struct Pairs<'a> {
    pub relation: &'a Relation,
    pub left: u8,
    pub right: u8,
    pub from: Side,
}

impl<'a> Pairs<'a> {
    /// Whether the mover's place `p` and the other net's place `q` are related.
    pub(crate) fn relates(&self, p: u8, q: u8) -> bool
        ensures { result ≡ pairs_of self.now p q }
    {
        let (l, r) = match self.from {
            Side::Left => (p, q),
            Side::Right => (q, p),
        };
        l < self.left && r < self.right && self.relation.contains(l, r)
    }
}

/// One more than the highest place that is related to `p`, or 0.
fn top(pairs: &Pairs, p: u8) -> u8
    ensures { result ≡ fold (λ top q. if pairs_of pairs.now p q then q + 1 else top) 0 (range_with_len 0 16) }
{
    (0..16u8).fold(0, |top, q| if pairs.relates(p, q) { q + 1 } else { top })
}

/// For each place, one more than the highest place that is related to it, or 0.
pub(crate) fn tops(pairs: &Pairs) -> [u8; 16]
    ensures { Topped (pairs_of pairs.now) result }
{
    array::from_fn(|p| top(pairs, p as u8))
}
