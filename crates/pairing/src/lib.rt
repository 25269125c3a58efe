//! The pairing of two bags of places under a relation, or the set of places that shows that there is none.

#![tactic(auto)]

ghost use Rattle.std.specs.Prelude.{◌≡◌, true, ◌↔◌};
ghost use Rattle.pairing.specs.Answers.{Decided};
ghost use Rattle.pairing.specs.Closure.{Closure, PairedExactly};
ghost use Rattle.pairing.specs.Outnumbering.{OutnumberedApart};
ghost use Rattle.pairing.specs.Refusals.{refusal_number, shown_with};
ghost use Rattle.places.specs.Meanings.{bag_of, relation_of};

use bags::Sequence;
use places::{PlaceBag, PlaceSet, Relation, Side};
use search::{decide_equal, larger};
use std::cmp::Ordering;

mod search;

/// Why two bags have no pairing.
#[derive(Clone, Copy, Debug, PartialEq, Eq)]
pub enum PairingRefusal {
    /// 33: the tokens of the left or the right bag on the places of a set outnumber all tokens of the other bag on
    /// the places related to it. With it come the side and the set.
    NoPairing((Side, PlaceSet)),
}

impl PairingRefusal {
    /// The number of the refusal.
    pub fn number(&self) -> u8
        ensures { result ≡ refusal_number self.now }
    {
        match self {
            PairingRefusal::NoPairing(_) => 33,
        }
    }

    /// The side that is shown, and the set of its places.
    pub fn shown(self) -> (Side, PlaceSet)
        ensures { result ≡ shown_with self }
    {
        match self {
            PairingRefusal::NoPairing(shown) => shown,
        }
    }
}

/// Finds a pairing of two bags under a relation, or else refuses and shows a side and a set of its places whose
/// tokens outnumber all tokens on the related places of the other side.
pub fn find_pairing(
    relation: &Relation,
    left: &PlaceBag,
    right: &PlaceBag,
) -> Result<Sequence<(u8, u8), 64>, PairingRefusal>
    ensures { Decided (relation_of relation.now) (bag_of left.now) (bag_of right.now) result }
{
    match left.size().cmp(&right.size()) {
        Ordering::Greater => Err(larger(Side::Left, relation, left, right)),
        Ordering::Less => Err(larger(Side::Right, relation, left, right)),
        Ordering::Equal => decide_equal(relation, left, right),
    }
}

/// Whether two bags have a pairing under a relation.
pub fn has_pairing(relation: &Relation, left: &PlaceBag, right: &PlaceBag) -> bool
    ensures { (result ≡ true) ↔ Closure (relation_of relation.now) (bag_of left.now) (bag_of right.now) }
{
    find_pairing(relation, left, right).is_ok()
}

/// The additive closure of a relation relates two bags exactly when they have a pairing: a theorem.
pub fn closure_is_pairing()
    ensures { PairedExactly }
{}

/// Where a set of places outnumbers the places related to it, two bags have no pairing: a theorem.
pub fn outnumbered_is_apart()
    ensures { OutnumberedApart }
{}
