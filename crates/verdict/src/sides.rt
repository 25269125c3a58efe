//! The obligations of one side, judged.
ghost use Rattle.std.specs.Prelude.{◌≡◌, ◌+◌, ◌*◌, ◌^◌, ◌<◌, ◌≤◌, map, length};
ghost use Rattle.nets.specs.Tables.{table_meaning};
ghost use Rattle.verdict.specs.Relating.{Outlined};
ghost use Rattle.verdict.specs.Results.{at};
ghost use Rattle.verdict.specs.Search.{bags_of, obligations_of, JudgedFor};

use crate::answers::find_answer;
use crate::half::Half;
use crate::job::Job;
use crate::obligation::Obligation;
use crate::outline::{Flows, outline_of};
use crate::short_list::ShortList;
use crate::walk::first_open;
use nets::Net;

/// Goes through the obligations of one transition.
fn transition_open(half: &Half, outline: &[Flows; 32], t: u8, count: u32) -> Result<u32, Obligation>
    requires outlined { Outlined (table_meaning half.now.other.now) outline.now }
    requires room { count + 2 ^ 20 < 2 ^ 32 }
    ensures { JudgedFor half.now count (map (at half.now.side t) (bags_of half.now t)) result }
{
    let Some(job) = Job::of(half, outline, t) else {
        return Ok(count);
    };
    let answered = |bag: ShortList| find_answer(&job, bag.as_slice()).is_some();
    let size = job.flows.takes.len();
    first_open(&job, &answered, ShortList::new(), 0, size, count)
}

/// Goes through the obligations of one side.
pub(crate) fn side_open(half: &Half, start: u32) -> Result<u32, Obligation>
    requires room { start + 33 * 2 ^ 20 < 2 ^ 32 }
    ensures judged { JudgedFor half.now start (obligations_of half.now (table_meaning half.now.mover.now).transitions) result }
    ensures few { length (obligations_of half.now (table_meaning half.now.mover.now).transitions) ≤ 32 * 2 ^ 20 }
{
    let outline = outline_of(half.other);
    let mut count = start;
    for t in 0..half.mover.transitions() {
        count = transition_open(half, &outline, t, count)?;
    }
    Ok(count)
}
