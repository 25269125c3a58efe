//! A name and what stands behind it.
ghost use Rattle.std.specs.Prelude.{◌≡◌, ◌≤◌, length, Some};
ghost use Rattle.items.specs.Items.{input_item, item_by, item_parts, name_length, tail_of};
ghost use Rattle.items.specs.Meant.{meant_by, tail_by};
ghost use Rattle.names.specs.Meanings.{number_of};

use crate::ranges::ranged_numeral;
use faults::NumberFault;
use names::Name;

/// Whether an item is an arc or an inhibitor.
#[derive(Clone, Copy, Debug, PartialEq, Eq)]
pub enum Role {
    Arc,
    Inhibitor,
}

/// What an item says: its place, its role, and its number, which is the weight of an arc.
#[derive(Clone, Copy, Debug, PartialEq, Eq)]
pub struct Item {
    pub place: Name,
    pub role: Role,
    pub number: Result<u8, NumberFault>,
}

/// What stands behind a name.
#[derive(Clone, Copy, Debug, PartialEq, Eq)]
enum Suffix<'a> {
    Plain,
    Times(&'a [u8]),
    Inhibits(&'a [u8]),
}

/// How many bytes stand before the first `*` or `?`.
fn name_length(word: &[u8]) -> usize
    ensures value { result ≡ name_length word.now }
    ensures within { result ≤ length word.now }
{
    word.iter()
        .take_while(|b| !matches!(**b, b'*' | b'?'))
        .count()
}

/// What the bytes behind a name are; none where they are no suffix.
fn suffix_of(suffix: &[u8]) -> Option<Suffix<'_>>
    ensures { tail_by result ≡ tail_of suffix.now }
{
    match suffix {
        [] => Some(Suffix::Plain),
        [b'*', digits @ ..] => Some(Suffix::Times(digits)),
        [b'?', b'-', digits @ ..] => Some(Suffix::Inhibits(digits)),
        _ => None,
    }
}

/// An item of a place, by what stands behind the place's name.
fn with_suffix(place: Name, suffix: Suffix) -> Option<Item>
    ensures { meant_by result ≡ item_by (number_of place) (tail_by (Some suffix.entry)) }
{
    match suffix {
        Suffix::Plain => Some(Item {
            place,
            role: Role::Arc,
            number: Ok(1),
        }),
        Suffix::Times(digits) => Some(Item {
            place,
            role: Role::Arc,
            number: ranged_numeral(digits, 1, 4)?,
        }),
        Suffix::Inhibits(digits) => Some(Item {
            place,
            role: Role::Inhibitor,
            number: ranged_numeral(digits, 1, 1)?,
        }),
    }
}

/// An item, by its name and what stands behind it.
fn of_parts(name: &[u8], suffix: &[u8]) -> Option<Item>
    ensures { meant_by result ≡ item_parts name.now suffix.now }
{
    with_suffix(Name::of(name)?, suffix_of(suffix)?)
}

/// An item, by the bytes of its word.
pub(crate) fn of_word(word: &[u8]) -> Option<Item>
    ensures { meant_by result ≡ input_item word.now }
{
    let (name, suffix) = word.split_at(name_length(word));
    of_parts(name, suffix)
}
