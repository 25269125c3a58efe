//! The verdict over two plain tables.
ghost use Rattle.std.specs.Prelude.{◌≡◌};
ghost use Rattle.bisimulation.specs.Verdicts.{verdict_of};
ghost use Rattle.nets.specs.Tables.{table_meaning};
ghost use Rattle.places.specs.Meanings.{relation_of};
ghost use Rattle.verdict.specs.Results.{verdict_as, Judges};

use crate::obligation::VerdictRefusal;
use crate::sides::side_open;
use crate::two_nets::TwoNets;
use bisimulation::{accepted_exactly, refused_breaks};
use places::Side;

/// Goes through the obligations of both sides.
fn both_sides(nets: &TwoNets) -> Result<u32, VerdictRefusal>
    ensures { verdict_as result ≡ verdict_of (table_meaning nets.now.left.now) (table_meaning nets.now.right.now) (relation_of nets.now.relation.now) }
{
    let count = side_open(&nets.half(Side::Left), 0)?;
    let total = side_open(&nets.half(Side::Right), count)?;
    Ok(total)
}

/// The verdict, with what it says of place bisimulation.
pub(crate) fn judge(nets: &TwoNets) -> Result<u32, VerdictRefusal>
    ensures { Judges (table_meaning nets.now.left.now) (table_meaning nets.now.right.now) (relation_of nets.now.relation.now) result }
{
    accepted_exactly();
    refused_breaks();
    both_sides(nets)
}
