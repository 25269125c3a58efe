//! The answer to an obligation.
ghost use Rattle.std.specs.Prelude.{◌≡◌, ℕ, ◌<◌, true, not, ◌&&◌, ◌||◌, nat_lt};
ghost use Rattle.bisimulation.specs.Lists.{same_list};
ghost use Rattle.bisimulation.specs.Verdicts.{alike, all_below, answers, lowest_below, same_truth, self_blocked};
ghost use Rattle.nets.specs.Firing.{pre_set};
ghost use Rattle.nets.specs.Tables.{table_meaning};
ghost use Rattle.verdict.specs.Search.{mover_of, other_of, related_by};

use crate::job::Job;
use crate::matching::related;
use nets::{Net, Table};

/// Whether a place is an input of the transition and also inhibits it.
fn blocks(net: &Table, t: u8, p: u8) -> bool
    ensures { result ≡ (nat_lt 0 (pre_set (table_meaning net.now) t p) && (table_meaning net.now).inhibits t p) }
{
    net.input(t, p) > 0 && net.inhibits(t, p)
}

/// Whether an input place of the transition also inhibits it.
pub(crate) fn is_blocked(net: &Table, t: u8) -> bool
    ensures { result ≡ self_blocked (table_meaning net.now) t }
{
    (0..net.places()).any(|p| blocks(net, t, p))
}

/// Whether two places that are related both inhibit, or neither does.
fn alike_at(job: &Job, u: u8, p: u8, q: u8) -> bool
    ensures { result ≡ (not (related_by job.now p q) || same_truth ((mover_of job.now).inhibits job.now.t p) ((other_of job.now).inhibits u q)) }
{
    let half = job.half;
    !half.pairs.relates(p, q) || half.mover.inhibits(job.t, p) == half.other.inhibits(u, q)
}

/// The same for one place of the mover and all places of the other net.
fn row_alike(job: &Job, u: u8, p: u8) -> bool
    ensures { result ≡ all_below (λ q. not (related_by job.now p q) || same_truth ((mover_of job.now).inhibits job.now.t p) ((other_of job.now).inhibits u q)) (other_of job.now).places }
{
    (0..job.half.other.places()).all(|q| alike_at(job, u, p, q))
}

/// Whether the inhibitors of the job's transition and of one of the other net are alike.
fn is_alike(job: &Job, u: u8) -> bool
    ensures { result ≡ alike (mover_of job.now) (other_of job.now) (related_by job.now) job.now.t u }
{
    (0..job.half.mover.places()).all(|p| row_alike(job, u, p))
}

/// Whether two lists are the same.
fn is_same(xs: &[u8], ys: &[u8]) -> bool
    ensures { result ≡ same_list xs.now ys.now }
{
    xs == ys
}

/// Whether a transition of the other net answers the job's transition and the bag of a list.
fn answers_with(job: &Job, ys: &[u8], u: u8) -> bool
    requires { u < 32 }
    ensures { result ≡ answers (mover_of job.now) (other_of job.now) (related_by job.now) job.now.t ys.now u }
{
    let half = job.half;
    let flows = job.outline[u as usize];
    is_same(flows.takes.as_slice(), ys)
        && half.mover.label(job.t) == half.other.label(u)
        && related(half, job.flows.gives, flows.gives.as_slice())
        && is_alike(job, u)
}

/// The lowest transition of the other net that answers.
pub(crate) fn find_answer(job: &Job, ys: &[u8]) -> Option<u8>
    ensures { result ≡ lowest_below (answers (mover_of job.now) (other_of job.now) (related_by job.now) job.now.t ys.now) (other_of job.now).transitions }
{
    (0..job.half.other.transitions()).find(|u| answers_with(job, ys, *u))
}
