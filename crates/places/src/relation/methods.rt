ghost use Rattle.std.specs.Prelude.{◌≡◌, true, false};
ghost use Rattle.places.specs.Meanings.{relation_of};
ghost use Rattle.places.specs.Sets.{unrelated, with_pair};

use super::*;
use crate::tables::{mark_pair, no_rows, pair_flag};

impl Relation {
    /// The empty relation.
    pub fn new() -> Self
        ensures { relation_of result ≡ unrelated }
    {
        Relation { rows: no_rows() }
    }

    /// Whether the pair of `left` and `right` is in the relation; none with a place above 15 is.
    pub fn contains(&self, left: u8, right: u8) -> bool
        ensures { result ≡ relation_of self.now left right }
    {
        pair_flag(&self.rows, left, right)
    }

    /// Puts the pair of `left` and `right` into the relation; one with a place above 15 changes nothing.
    pub fn insert(&mut self, left: u8, right: u8)
        ensures { relation_of self.new ≡ with_pair (relation_of self.old) left right true }
    {
        mark_pair(&mut self.rows, left, right, true);
    }

    /// Takes the pair of `left` and `right` out of the relation; one with a place above 15 changes nothing.
    pub fn remove(&mut self, left: u8, right: u8)
        ensures { relation_of self.new ≡ with_pair (relation_of self.old) left right false }
    {
        mark_pair(&mut self.rows, left, right, false);
    }
}

impl Default for Relation {
    ghost is_default = { λ r. relation_of r ≡ unrelated };

    fn default() -> Self {
        Relation::new()
    }
}
