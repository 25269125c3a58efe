ghost use Rattle.std.specs.Prelude.{◌≡◌};
ghost use Rattle.nets.specs.Tables.{table_meaning};
ghost use Rattle.places.specs.Meanings.{relation_of};
ghost use Rattle.verdict.specs.Search.{Faces, Moves};

use super::*;
use crate::pairs::tops;
use nets::Net;
use places::Relation;

impl<'a> Half<'a> {
    /// The side on which a net moves and another answers.
    fn between(side: Side, mover: &'a Table, other: &'a Table, pairs: Pairs<'a>) -> Half<'a>
        ensures { Moves side mover.now other.now pairs.entry result }
    {
        Half {
            side,
            mover,
            other,
            pairs,
            tops: tops(&pairs),
        }
    }

    /// A side of two nets under a relation.
    pub(crate) fn of(
        side: Side,
        left: &'a Table,
        right: &'a Table,
        relation: &'a Relation,
    ) -> Half<'a>
        ensures { Faces side (table_meaning left.now) (table_meaning right.now) (relation_of relation.now) result }
    {
        let pairs = Pairs {
            relation,
            left: left.places(),
            right: right.places(),
            from: side,
        };
        match side {
            Side::Left => Half::between(side, left, right, pairs),
            Side::Right => Half::between(side, right, left, pairs),
        }
    }
}
