//! Places, numbered from 0 to 15: bags, sets and relations of places.

#![tactic(auto)]

ghost use Rattle.std.specs.Prelude.{◌≡◌, Some};
ghost use Rattle.places.specs.Refusals.{lay_number};
ghost use Rattle.places.specs.Sides.{side_text};

use std::fmt;

mod lists;
mod place_bag;
mod place_set;
mod relation;
mod tables;

pub use place_bag::PlaceBag;
pub use place_set::PlaceSet;
pub use relation::Relation;

/// Which of the two nets.
#[derive(Clone, Copy, Debug, PartialEq, Eq)]
pub enum Side {
    Left,
    Right,
}

/// The side in lower case: `left` or `right`.
impl fmt::Display for Side {
    ghost output = { λ side. Some (side_text side) };

    fn fmt<W: fmt::Write>(&self, f: &mut fmt::Formatter<W>) -> fmt::Result {
        f.write_str(match self {
            Side::Left => "left",
            Side::Right => "right",
        })
    }
}

/// Why a token is not laid.
#[derive(Clone, Copy, Debug, PartialEq, Eq)]
pub enum LayRefusal {
    /// 23: there is no such place.
    NoSuchPlace,
    /// 24: there are 64 tokens already.
    Full,
}

impl LayRefusal {
    /// The number of the refusal.
    pub fn number(&self) -> u8
        ensures { result ≡ lay_number self.now }
    {
        match self {
            LayRefusal::NoSuchPlace => 23,
            LayRefusal::Full => 24,
        }
    }
}
