//! The items of a net text: arcs, inhibitors and markings, by the bytes of a word.

#![tactic(auto)]

ghost use Rattle.std.specs.Prelude.{◌≡◌};
ghost use Rattle.items.specs.Exactly.{WrittenExactly};
ghost use Rattle.items.specs.Items.{input_item, output_item};
ghost use Rattle.items.specs.Meant.{meant_by};
ghost use Rattle.items.specs.Numbers.{marking};

use faults::NumberFault;

mod item;
mod ranges;

pub use item::{Item, Role};

/// What an input item says, `NAME`, `NAME*N` or `NAME?-N`; none where the word is no such item.
pub fn input_item(word: &[u8]) -> Option<Item>
    ensures { meant_by result ≡ input_item word.now }
{
    item::of_word(word)
}

/// What an output item says, `NAME` or `NAME*N`; none where the word is no such item.
pub fn output_item(word: &[u8]) -> Option<Item>
    ensures { meant_by result ≡ output_item word.now }
{
    input_item(word).filter(|item| item.role == Role::Arc)
}

/// How many tokens a marking `(N)` says, 0 to 64; none where the word is no marking.
pub fn read_marking(word: &[u8]) -> Option<Result<u8, NumberFault>>
    ensures { result ≡ marking word.now }
{
    ranges::marking(word)
}

/// The words that are items and markings are exactly those that are written as one: a name; a name, `*` and one to five
/// digits; a name, `?-` and one to five digits; one to five digits in brackets.
pub fn items_are_exact()
    ensures { WrittenExactly }
{}
