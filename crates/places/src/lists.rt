//! Relations, sets and bags made of lists.
ghost use Rattle.std.specs.Prelude.{◌≡◌};
ghost use Rattle.places.specs.Bags.{empty};
ghost use Rattle.places.specs.Lists.{meant, with_pairs, with_places, with_tokens};
ghost use Rattle.places.specs.Meanings.{relation_of, set_of};
ghost use Rattle.places.specs.Sets.{nowhere, unrelated};

use crate::{LayRefusal, PlaceBag, PlaceSet, Relation};

/// The relation of a list of pairs.
fn paired(pairs: &[(u8, u8)]) -> Relation
    ensures { relation_of result ≡ with_pairs unrelated pairs.now }
{
    let mut relation = Relation::new();
    for pair in pairs {
        relation.insert(pair.0, pair.1);
    }
    relation
}

/// The set of a list of places.
fn gathered(places: &[u8]) -> PlaceSet
    ensures { set_of result ≡ with_places nowhere places.now }
{
    let mut set = PlaceSet::new();
    for place in places {
        set.insert(*place);
    }
    set
}

/// The bag of a list of tokens, or the first refusal.
fn laid(tokens: &[u8]) -> Result<PlaceBag, LayRefusal>
    ensures { meant result ≡ with_tokens empty tokens.now }
{
    let mut bag = PlaceBag::new();
    for token in tokens {
        bag.lay(*token)?;
    }
    Ok(bag)
}

/// The relation of a list of pairs; those with a place above 15 change nothing.
impl From<&[(u8, u8)]> for Relation {
    ghost from_gives = { λ pairs r. relation_of r ≡ with_pairs unrelated pairs.now };

    fn from(pairs: &[(u8, u8)]) -> Relation {
        paired(pairs)
    }
}

/// The set of a list of places; those above 15 change nothing.
impl From<&[u8]> for PlaceSet {
    ghost from_gives = { λ places s. set_of s ≡ with_places nowhere places.now };

    fn from(places: &[u8]) -> PlaceSet {
        gathered(places)
    }
}

/// The bag of a list of tokens, laid from the first on; refused with the first refusal.
impl TryFrom<&[u8]> for PlaceBag {
    type Error = LayRefusal;

    ghost try_from_gives = { λ tokens r. meant r ≡ with_tokens empty tokens.now };

    fn try_from(tokens: &[u8]) -> Result<PlaceBag, LayRefusal> {
        laid(tokens)
    }
}
