//! What a verdict is about.
ghost use Rattle.nets.specs.Tables.{table_meaning};
ghost use Rattle.places.specs.Meanings.{relation_of};
ghost use Rattle.verdict.specs.Search.{Faces};

use crate::half::Half;
use nets::Table;
use places::{Relation, Side};

/// Two nets, and a relation of their places.
#[derive(Clone, Copy)]
pub struct TwoNets<'a> {
    pub left: &'a Table,
    pub right: &'a Table,
    pub relation: &'a Relation,
}

impl<'a> TwoNets<'a> {
    /// One side of the verdict.
    pub(crate) fn half(&self, side: Side) -> Half<'a>
        ensures { Faces side (table_meaning self.now.left.now) (table_meaning self.now.right.now) (relation_of self.now.relation.now) result }
    {
        Half::of(side, self.left, self.right, self.relation)
    }
}
