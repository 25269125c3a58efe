ghost use Rattle.std.specs.Prelude.{◌≡◌};
ghost use Rattle.places.specs.Meanings.{set_of};
ghost use Rattle.places.specs.Sets.{nowhere, with_place};

use super::*;
use crate::tables::{flag, mark, no_flags};

impl PlaceSet {
    /// The empty set.
    pub fn new() -> Self
        ensures { set_of result ≡ nowhere }
    {
        PlaceSet { flags: no_flags() }
    }

    /// Whether `place` is in the set; none above 15 is.
    pub fn contains(&self, place: u8) -> bool
        ensures { result ≡ set_of self.now place }
    {
        flag(&self.flags, place)
    }

    /// Puts `place` into the set; one above 15 changes nothing.
    pub fn insert(&mut self, place: u8)
        ensures { set_of self.new ≡ with_place (set_of self.old) place }
    {
        mark(&mut self.flags, place);
    }
}

impl Default for PlaceSet {
    ghost is_default = { λ s. set_of s ≡ nowhere };

    fn default() -> Self {
        PlaceSet::new()
    }
}
