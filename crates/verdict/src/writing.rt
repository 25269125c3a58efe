//! The obligations of one transition with their answers, written to the caller's slice.
//!
//! The same walk as in `walk`, and no closure of it: after a call nothing is known of a slice that a closure borrowed and
//! changed. A trait with one impl that tests and one that writes would be no plainer: its contract would have to say both what
//! a test gives and what each call leaves of the entries.
ghost use Rattle.std.specs.Prelude.{◌≡◌, ℕ, ◌+◌, ◌-◌, ◌<◌, ◌≤◌, true, [], ◌∷◌, ◌++◌, map, length};
ghost use Rattle.bisimulation.specs.Verdicts.{obliges};
ghost use Rattle.verdict.specs.Results.{Wrote};
ghost use Rattle.verdict.specs.Search.{bags_after, mover_of, other_of, related_by};
ghost use Rattle.verdict.specs.Entries.{entry};
ghost use Rattle.verdict.specs.ShortLists.{listed};

use crate::answers::find_answer;
use crate::job::Job;
use crate::matching::completes;
use crate::obligation::AnsweredObligation;
use crate::short_list::ShortList;
use nets::Net;

/// Writes a bag with its answer.
fn write_one(job: &Job, bag: ShortList, at: usize, out: &mut [AnsweredObligation])
    requires room { at < length out.old }
    requires known { obliges (mover_of job.now) (related_by job.now) job.now.t (listed bag) ≡ true }
    ensures { Wrote at out.old (entry job.now (listed bag) ∷ []) out.new }
{
    let answer = find_answer(job, bag.as_slice());
    let obligation = job.obligation(bag);
    out[at] = AnsweredObligation { obligation, answer };
}

/// Writes the bags that begin with the places chosen and then `from`, and go on with `left` places, none of them below
/// `from`; only if that beginning can be completed.
#[cycle(write_down_write_from)]
fn write_down(
    job: &Job,
    chosen: ShortList,
    from: u8,
    left: usize,
    at: usize,
    out: &mut [AnsweredObligation],
) -> usize
    requires sized { length (listed chosen) + 1 + left ≡ length (listed job.now.flows.takes) }
    requires room { at + length (bags_after (mover_of job.now) (related_by job.now) job.now.t (listed chosen ++ from ∷ []) ((other_of job.now).places - from) from left) ≤ length out.old }
    ensures next { result ≡ at + length (bags_after (mover_of job.now) (related_by job.now) job.now.t (listed chosen ++ from ∷ []) ((other_of job.now).places - from) from left) }
    ensures written { Wrote at out.old (map (entry job.now) (bags_after (mover_of job.now) (related_by job.now) job.now.t (listed chosen ++ from ∷ []) ((other_of job.now).places - from) from left)) out.new }
{
    let mut chosen = chosen;
    let _ = chosen.push(from);
    if !completes(job.half, job.flows.takes, chosen.as_slice(), from) {
        return at;
    }
    write_from(job, chosen, from, left, at, out)
}

/// Writes the bags that begin with the places chosen and go on with `left` places, none of them below `from`, from the
/// number `at` on, and gives the number behind the last.
#[cycle(write_down_write_from)]
pub(crate) fn write_from(
    job: &Job,
    chosen: ShortList,
    from: u8,
    left: usize,
    at: usize,
    out: &mut [AnsweredObligation],
) -> usize
    requires sized { length (listed chosen) + left ≡ length (listed job.now.flows.takes) }
    requires room { at + length (bags_after (mover_of job.now) (related_by job.now) job.now.t (listed chosen) ((other_of job.now).places - from) from left) ≤ length out.old }
    requires known { left ≡ 0 → obliges (mover_of job.now) (related_by job.now) job.now.t (listed chosen) ≡ true }
    ensures next { result ≡ at + length (bags_after (mover_of job.now) (related_by job.now) job.now.t (listed chosen) ((other_of job.now).places - from) from left) }
    ensures written { Wrote at out.old (map (entry job.now) (bags_after (mover_of job.now) (related_by job.now) job.now.t (listed chosen) ((other_of job.now).places - from) from left)) out.new }
{
    if left == 0 {
        write_one(job, chosen, at, out);
        return at + 1;
    }
    if from >= job.half.other.places() {
        return at;
    }
    let next = write_down(job, chosen, from, left - 1, at, out);
    write_from(job, chosen, from + 1, left, next, out)
}
