//! The search: tokens are paired one by one; where a right place has no free token, pairs are moved along a path
//! of places to one that has.
//!
//! The relation, the pairs and the free tokens are three parameters: a struct would hold the relation too, and each
//! function that changes it would have to say that the relation stays, where it now asks that the pairs are in it.
//! Places are plain numbers here, as they are to the caller: that one is below 16 is asked where a set or a pair is made
//! of it, and a type that says so would be made and taken apart at each call.
ghost use Rattle.std.specs.Prelude.{◌≡◌, ℕ, ◌+◌, ◌-◌, ◌<◌, ◌≤◌, true, false, [], ◌∷◌, ◌++◌, length, set, Err, MatchBool, MatchOption, MatchResult, nat_lt, slice_set};
ghost use Rattle.bags.specs.Items.{items};
ghost use Rattle.pairing.specs.Answers.{Decided, LargerOn};
ghost use Rattle.pairing.specs.Closure.{Pairing};
ghost use Rattle.pairing.specs.declared.PairingRefusal.TheVariants.{NoPairing};
ghost use Rattle.places.specs.declared.Side.TheVariants.{Left};
ghost use Rattle.pairing.specs.Search.{left_end, unseen, Held, NoHolder, Holder, Opened, Shut, Trying, InVain, Room, Added, PairedOf, ShortOf, Reached, Fails};
ghost use Rattle.places.specs.Bags.{single, ◌⊕◌, ◌⊖◌};
ghost use Rattle.places.specs.Meanings.{bag_of, relation_of, set_of};
ghost use Rattle.places.specs.Sets.{size};

use crate::PairingRefusal;
use bags::Sequence;
use places::{PlaceBag, PlaceSet, Relation, Side};

/// The first pair that ends at `q` and could end at `r`.
fn holder(relation: &Relation, pairs: &[(u8, u8)], q: u8, r: u8) -> Option<usize>
    ensures { MatchOption result (NoHolder (relation_of relation.now) pairs.now q r) (λ j. Holder (relation_of relation.now) pairs.now q r j) }
{
    pairs
        .iter()
        .position(|pair| pair.1 == q && relation.contains(pair.0, r))
}

/// Lets the pair at the number `j` end at `r`.
fn move_end(pairs: &mut Sequence<(u8, u8), 64>, j: usize, r: u8)
    requires { j < length (items pairs.old) }
    ensures { items pairs.new ≡ slice_set (items pairs.old) j (left_end (items pairs.old) j, r) }
{
    let p = pairs.as_slice()[j].0;
    let _ = pairs.replace(j, (p, r));
}

/// Takes a free token of `r`, and makes one of `q` free.
fn exchange(free: &mut PlaceBag, q: u8, r: u8)
    requires low { (q < 16) × (r < 16) }
    requires some { 0 < bag_of free.old r }
    ensures { bag_of free.new ≡ single q ⊕ (bag_of free.old ⊖ single r) }
{
    let _ = free.take(r);
    let _ = free.lay(q);
}

/// Moves the pair at the number `j` from `q` to `r`, which has a free token.
fn shift(pairs: &mut Sequence<(u8, u8), 64>, free: &mut PlaceBag, j: usize, q: u8, r: u8)
    requires there { j < length (items pairs.old) }
    requires low { (q < 16) × (r < 16) }
    requires some { 0 < bag_of free.old r }
    ensures moved { items pairs.new ≡ slice_set (items pairs.old) j (left_end (items pairs.old) j, r) }
    ensures freed { bag_of free.new ≡ single q ⊕ (bag_of free.old ⊖ single r) }
{
    move_end(pairs, j, r);
    exchange(free, q, r);
}

/// Makes a token of the right place `q` free, if that can be done by moving pairs that end at places not seen.
#[cycle(open_place_reopen)]
fn open_place(
    relation: &Relation,
    pairs: &mut Sequence<(u8, u8), 64>,
    free: &mut PlaceBag,
    seen: &mut PlaceSet,
    q: u8,
) -> bool
    requires low { q < 16 }
    requires fresh { set_of seen.old q ≡ false }
    requires held { Held (relation_of relation.now) (items pairs.old) }
    ensures { MatchBool result (Opened (relation_of relation.now) (items pairs.old) (bag_of free.old) (set_of seen.old) q (items pairs.new) (bag_of free.new)) (Shut (relation_of relation.now) (items pairs.old) (bag_of free.old) (set_of seen.old) q (items pairs.new) (bag_of free.new) (set_of seen.new)) }
{
    seen.insert(q);
    if free.count(q) > 0 {
        return true;
    }
    reopen(relation, pairs, free, seen, q)
}

/// Makes a token of the right place `q`, which has none free, free by moving a pair of `q` to a place not seen.
#[cycle(open_place_reopen)]
fn reopen(
    relation: &Relation,
    pairs: &mut Sequence<(u8, u8), 64>,
    free: &mut PlaceBag,
    seen: &mut PlaceSet,
    q: u8,
) -> bool
    requires low { q < 16 }
    requires marked { set_of seen.old q ≡ true }
    requires held { Held (relation_of relation.now) (items pairs.old) }
    ensures { MatchBool result (Opened (relation_of relation.now) (items pairs.old) (bag_of free.old) (set_of seen.old) q (items pairs.new) (bag_of free.new)) (Trying (relation_of relation.now) (items pairs.old) (bag_of free.old) (set_of seen.old) q (items pairs.new) (bag_of free.new) (set_of seen.new) 16) }
{
    for r in 0..16u8 {
        if !seen.contains(r) {
            if let Some(j) = holder(relation, pairs.as_slice(), q, r) {
                if open_place(relation, pairs, free, seen, r) {
                    shift(pairs, free, j, q, r);
                    return true;
                }
            }
        }
    }
    false
}

/// The left places that a search from `p` reached: `p`, and the left ends of the pairs that end at seen places.
fn reached(pairs: &[(u8, u8)], seen: &PlaceSet, p: u8) -> PlaceSet
    requires low { p < 16 }
    requires lows { (k : ℕ) → k < length pairs.now → left_end pairs.now k < 16 }
    ensures { Reached pairs.now (set_of seen.now) p (length pairs.now) (set_of result) }
{
    let mut places = PlaceSet::new();
    places.insert(p);
    for (left, right) in pairs {
        if seen.contains(*right) {
            places.insert(*left);
        }
    }
    places
}

/// Makes a token free on some right place that is related to `p`; or else gives the left places reached on the way.
fn place(
    relation: &Relation,
    pairs: &mut Sequence<(u8, u8), 64>,
    free: &mut PlaceBag,
    p: u8,
) -> Result<u8, PlaceSet>
    requires low { p < 16 }
    requires held { Held (relation_of relation.now) (items pairs.old) }
    ensures { MatchResult result (λ q. Room (relation_of relation.now) (items pairs.old) (bag_of free.old) p q (items pairs.new) (bag_of free.new)) (λ places. InVain (relation_of relation.now) (items pairs.old) (bag_of free.old) p (items pairs.new) (bag_of free.new) (set_of places)) }
{
    let mut seen = PlaceSet::new();
    for q in 0..16u8 {
        if relation.contains(p, q) && !seen.contains(q) {
            if open_place(relation, pairs, free, &mut seen, q) {
                return Ok(q);
            }
        }
    }
    Err(reached(pairs.as_slice(), &seen, p))
}

/// Adds a pair at the end.
fn append(pairs: &mut Sequence<(u8, u8), 64>, pair: (u8, u8))
    requires { length (items pairs.old) < 64 }
    ensures { items pairs.new ≡ items pairs.old ++ pair ∷ [] }
{
    let _ = pairs.push(pair);
}

/// Pairs one more token, of the left place `p`.
fn place_next(
    relation: &Relation,
    pairs: &mut Sequence<(u8, u8), 64>,
    free: &mut PlaceBag,
    p: u8,
) -> Result<(), PlaceSet>
    requires low { p < 16 }
    requires room { length (items pairs.old) < 64 }
    requires held { Held (relation_of relation.now) (items pairs.old) }
    ensures { MatchResult result (λ _. Added (relation_of relation.now) (items pairs.old) (bag_of free.old) p (items pairs.new) (bag_of free.new)) (λ places. InVain (relation_of relation.now) (items pairs.old) (bag_of free.old) p (items pairs.new) (bag_of free.new) (set_of places)) }
{
    let q = place(relation, pairs, free, p)?;
    append(pairs, (p, q));
    let _ = free.take(q);
    Ok(())
}

/// Pairs as many tokens of the left place `p` as `times` says, or else gives the left places reached in vain.
fn place_all(
    relation: &Relation,
    pairs: &mut Sequence<(u8, u8), 64>,
    free: &mut PlaceBag,
    p: u8,
    times: u8,
) -> Result<(), PlaceSet>
    requires low { p < 16 }
    requires room { length (items pairs.old) + times ≤ 64 }
    requires held { Held (relation_of relation.now) (items pairs.old) }
    ensures { MatchResult result (λ _. PairedOf (relation_of relation.now) (items pairs.old) (bag_of free.old) p times (items pairs.new) (bag_of free.new)) (λ places. ShortOf (relation_of relation.now) (items pairs.old) (bag_of free.old) p times (set_of places)) }
{
    for _ in 0..times {
        place_next(relation, pairs, free, p)?;
    }
    Ok(())
}

/// Pairs two bags of one size, or else gives a set of left places that outnumbers the places related to it.
fn pair_equal(
    relation: &Relation,
    left: &PlaceBag,
    right: &PlaceBag,
) -> Result<Sequence<(u8, u8), 64>, PlaceSet>
    requires { size (bag_of left.now) ≡ size (bag_of right.now) }
    ensures { MatchResult result (λ pairs. Pairing (relation_of relation.now) (bag_of left.now) (bag_of right.now) (items pairs)) (λ places. Fails (relation_of relation.now) (bag_of left.now) (bag_of right.now) (set_of places)) }
{
    let mut pairs = Sequence::new();
    let mut free = *right;
    for p in 0..16u8 {
        place_all(relation, &mut pairs, &mut free, p, left.count(p))?;
    }
    Ok(pairs)
}

/// The refusal that shows a set of left places.
fn shown_left(places: PlaceSet) -> PairingRefusal
    ensures { result ≡ NoPairing (Left, places) }
{
    PairingRefusal::NoPairing((Side::Left, places))
}

/// Pairs two bags of one size, or else shows a set of left places.
pub(crate) fn decide_equal(
    relation: &Relation,
    left: &PlaceBag,
    right: &PlaceBag,
) -> Result<Sequence<(u8, u8), 64>, PairingRefusal>
    requires { size (bag_of left.now) ≡ size (bag_of right.now) }
    ensures { Decided (relation_of relation.now) (bag_of left.now) (bag_of right.now) result }
{
    pair_equal(relation, left, right).map_err(shown_left)
}

/// The places that hold a token.
fn marked(bag: &PlaceBag) -> PlaceSet
    ensures { (p : ℕ) → set_of result p ≡ nat_lt 0 (bag_of bag.now p) }
{
    let mut places = PlaceSet::new();
    for p in 0..16u8 {
        if bag.count(p) > 0 {
            places.insert(p);
        }
    }
    places
}

/// The refusal where the bag of a side is the larger.
pub(crate) fn larger(
    side: Side,
    relation: &Relation,
    left: &PlaceBag,
    right: &PlaceBag,
) -> PairingRefusal
    requires { LargerOn side (bag_of left.now) (bag_of right.now) }
    ensures { Decided (relation_of relation.now) (bag_of left.now) (bag_of right.now) (Err result) }
{
    match side {
        Side::Left => PairingRefusal::NoPairing((Side::Left, marked(left))),
        Side::Right => PairingRefusal::NoPairing((Side::Right, marked(right))),
    }
}
