//! Whether an answer is the one that was worked out by hand.
ghost use Rattle.std.specs.Prelude.{◌≡◌, ℕ, ◌↔◌, true, count_by};
ghost use Rattle.std.specs.List.{list_all, range_with_len};
ghost use Rattle.bags.specs.Exact.{same_pair};
ghost use Rattle.demo.specs.Examples.{as_often, same_pairs};
ghost use Rattle.demo.specs.Hand.{pairs_expected, ShownAs, RefusalExpected};
ghost use Rattle.places.specs.Meanings.{set_of};
ghost use mathlib.Core.Bool.{beq};

use crate::examples::{Expected, Shown};
use pairing::PairingRefusal;
use places::PlaceSet;

/// How often a pair stands in a list.
pub fn times(pairs: &[(u8, u8)], pair: (u8, u8)) -> usize
    ensures { result ≡ count_by (λ y. same_pair y pair) pairs.now }
{
    pairs.iter().filter(|x| **x == pair).count()
}

/// Whether each pair of `expected` stands as often in `found` as there.
fn as_often(found: &[(u8, u8)], expected: &[(u8, u8)]) -> bool
    ensures { result ≡ as_often found.now expected.now expected.now }
{
    expected
        .iter()
        .all(|pair| times(found, *pair) == times(expected, *pair))
}

/// Whether two lists have the same pairs, in whatever order.
fn same_pairs(found: &[(u8, u8)], expected: &[(u8, u8)]) -> bool
    ensures { result ≡ same_pairs found.now expected.now }
{
    found.len() == expected.len() && as_often(found, expected)
}

/// Whether two sets agree at each of the 16 places: `==` of sets leaves open that their tables are of one length.
fn same_below(a: &PlaceSet, b: &PlaceSet) -> bool
    ensures { result ≡ list_all (λ p. beq (set_of a.now p) (set_of b.now p)) (range_with_len 0 16) }
{
    (0..16u8).all(|p| a.contains(p) == b.contains(p))
}

/// Whether two sets have the same places.
fn same_places(a: &PlaceSet, b: &PlaceSet) -> bool
    ensures { (result ≡ true) ↔ ((p : ℕ) → set_of a.now p ≡ set_of b.now p) }
{
    same_below(a, b)
}

/// Whether a refusal has the number, the side and the places that were worked out.
fn same_refusal(refusal: PairingRefusal, expected: &Shown) -> bool
    ensures { (result ≡ true) ↔ ShownAs expected.now refusal }
{
    let (side, places) = refusal.shown();
    refusal.number() == expected.number
        && side == expected.side
        && same_places(&places, &PlaceSet::from(expected.places))
}

/// Whether these pairs were to be found.
pub fn pairs_agree(found: &[(u8, u8)], expected: &Expected) -> bool
    ensures { result ≡ pairs_expected expected.now found.now }
{
    expected.is_ok_and(|pairs| same_pairs(found, pairs))
}

/// Whether this refusal was to be given.
pub fn refusal_agrees(refusal: PairingRefusal, expected: &Expected) -> bool
    ensures { (result ≡ true) ↔ RefusalExpected expected.now refusal }
{
    expected.is_err_and(|shown| same_refusal(refusal, &shown))
}
