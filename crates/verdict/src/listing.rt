//! The list of the obligations with their answers.
ghost use Rattle.std.specs.Prelude.{◌≡◌, ◌+◌, ◌*◌, ◌^◌, ◌<◌, ◌≤◌, map, length};
ghost use Rattle.nets.specs.Tables.{table_meaning};
ghost use Rattle.places.specs.Meanings.{relation_of};
ghost use Rattle.verdict.specs.Relating.{Outlined};
ghost use Rattle.verdict.specs.Results.{at, ListsAnswers};
ghost use Rattle.verdict.specs.Search.{bags_of, obligations_of, WroteFor};

use crate::half::Half;
use crate::job::Job;
use crate::obligation::{AnsweredObligation, ListRefusal};
use crate::outline::{Flows, outline_of};
use crate::short_list::ShortList;
use crate::two_nets::TwoNets;
use crate::walk::first_open;
use crate::writing::write_from;
use nets::Net;
use places::Side;

/// How many obligations one transition has, added to `count`.
fn count_transition(half: &Half, outline: &[Flows; 32], t: u8, count: u32) -> u32
    requires outlined { Outlined (table_meaning half.now.other.now) outline.now }
    requires room { count + 2 ^ 20 < 2 ^ 32 }
    ensures { result ≡ count + length (bags_of half.now t) }
{
    let Some(job) = Job::of(half, outline, t) else {
        return count;
    };
    let size = job.flows.takes.len();
    first_open(&job, &|_: ShortList| true, ShortList::new(), 0, size, count).unwrap_or(count)
}

/// How many obligations one side has.
fn count_side(half: &Half, outline: &[Flows; 32]) -> u32
    requires { Outlined (table_meaning half.now.other.now) outline.now }
    ensures value { result ≡ length (obligations_of half.now (table_meaning half.now.mover.now).transitions) }
    ensures few { result ≤ 32 * 2 ^ 20 }
{
    // By `map` and `sum` a goal on the runs of the chain is left open, `sum-requires-clause-fits`.
    let mut count = 0;
    for t in 0..half.mover.transitions() {
        count = count_transition(half, outline, t, count);
    }
    count
}

/// Writes the obligations of one transition.
fn write_transition(
    half: &Half,
    outline: &[Flows; 32],
    t: u8,
    start: usize,
    out: &mut [AnsweredObligation],
) -> usize
    requires outlined { Outlined (table_meaning half.now.other.now) outline.now }
    requires room { start + length (bags_of half.now t) ≤ length out.old }
    ensures next { result ≡ start + length (bags_of half.now t) }
    ensures written { WroteFor half.now start out.old (map (at half.now.side t) (bags_of half.now t)) out.new }
{
    let Some(job) = Job::of(half, outline, t) else {
        return start;
    };
    write_from(&job, ShortList::new(), 0, job.flows.takes.len(), start, out)
}

/// Writes the obligations of one side.
fn write_side(
    half: &Half,
    outline: &[Flows; 32],
    start: usize,
    out: &mut [AnsweredObligation],
) -> usize
    requires outlined { Outlined (table_meaning half.now.other.now) outline.now }
    requires room { start + length (obligations_of half.now (table_meaning half.now.mover.now).transitions) ≤ length out.old }
    ensures next { result ≡ start + length (obligations_of half.now (table_meaning half.now.mover.now).transitions) }
    ensures written { WroteFor half.now start out.old (obligations_of half.now (table_meaning half.now.mover.now).transitions) out.new }
{
    let mut next = start;
    for t in 0..half.mover.transitions() {
        next = write_transition(half, outline, t, next, out);
    }
    next
}

/// Each obligation in order with its answer or none.
pub(crate) fn write_answers(
    nets: &TwoNets,
    out: &mut [AnsweredObligation],
) -> Result<usize, ListRefusal>
    ensures { ListsAnswers (table_meaning nets.now.left.now) (table_meaning nets.now.right.now) (relation_of nets.now.relation.now) out.old result out.new }
{
    let lefts = nets.half(Side::Left);
    let rights = nets.half(Side::Right);
    let lefts_outline = outline_of(lefts.other);
    let rights_outline = outline_of(rights.other);
    let total = (count_side(&lefts, &lefts_outline)
        + count_side(&rights, &rights_outline)) as usize;
    if out.len() < total {
        return Err(ListRefusal::TooFew);
    }
    let middle = write_side(&lefts, &lefts_outline, 0, out);
    write_side(&rights, &rights_outline, middle, out);
    Ok(total)
}
