ghost use Rattle.std.specs.Prelude.{◌≡◌, ◌<◌, ◌≤◌, nat_lt};
ghost use Rattle.places.specs.Bags.{empty, single, ◌⊖◌};
ghost use Rattle.places.specs.Meanings.{bag_of};
ghost use Rattle.places.specs.Refusals.{Laid};
ghost use Rattle.places.specs.Sets.{size};

use super::*;
use crate::LayRefusal;
use crate::tables::{entry, less_one, no_counts, plus_one, total};

impl PlaceBag {
    /// The empty bag.
    pub fn new() -> Self
        ensures { bag_of result ≡ empty }
    {
        PlaceBag {
            counts: no_counts(),
        }
    }

    /// How many tokens lie on `place`; none above 15.
    pub fn count(&self, place: u8) -> u8
        ensures { result ≡ bag_of self.now place }
    {
        entry(&self.counts, place)
    }

    /// How many tokens the bag holds.
    pub fn size(&self) -> usize
        ensures value { result ≡ size (bag_of self.now) }
        ensures few { result ≤ 64 }
    {
        total(&self.counts)
    }

    /// Lays one token on `place`; refused where there is no such place, and then where there are 64 tokens already.
    pub fn lay(&mut self, place: u8) -> Result<(), LayRefusal>
        ensures { Laid (bag_of self.old) place result (bag_of self.new) }
    {
        if place > 15 {
            return Err(LayRefusal::NoSuchPlace);
        }
        if self.size() == 64 {
            return Err(LayRefusal::Full);
        }
        plus_one(&mut self.counts, place);
        Ok(())
    }

    /// Takes one token from `place`, if there is one, and says whether there was.
    pub fn take(&mut self, place: u8) -> bool
        ensures found { result ≡ nat_lt 0 (bag_of self.old place) }
        ensures after { bag_of self.new ≡ bag_of self.old ⊖ single place }
    {
        less_one(&mut self.counts, place)
    }
}

impl Default for PlaceBag {
    ghost is_default = { λ b. bag_of b ≡ empty };

    fn default() -> Self {
        PlaceBag::new()
    }
}
