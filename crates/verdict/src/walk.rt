//! The bags of the obligations of one transition, gone through in dictionary order.
//!
//! How many places are left to choose stands beside those chosen, and `sized` says that both together are the transition's:
//! worked out of the places chosen, it would be a difference in each clause, and still a bound in each contract.
ghost use Rattle.std.specs.Prelude.{◌≡◌, ℕ, ◌+◌, ◌-◌, ◌^◌, ◌<◌, ◌≤◌, true, [], ◌∷◌, ◌++◌, length, List, Option, Bool, is_some, IfOk};
ghost use Rattle.bisimulation.specs.Lists.{lists_from};
ghost use Rattle.bisimulation.specs.Verdicts.{obliges};
ghost use Rattle.verdict.specs.ShortLists.{ShortList, listed};
ghost use Rattle.verdict.specs.Search.{bags_after, mover_of, other_of, related_by, Passed};

use crate::job::Job;
use crate::matching::completes;
use crate::obligation::Obligation;
use crate::short_list::ShortList;
use nets::Net;

/// Counts a bag; or gives its obligation, where it does not pass.
fn pass<F: Fn(ShortList) -> bool>(
    job: &Job,
    passes: &F,
    bag: ShortList,
    count: u32,
) -> Result<u32, Obligation>
    requires callable { F.IsAlwaysCallable passes.now }
    requires room { count + 1 < 2 ^ 32 }
    ensures counted { IfOk result (λ n. n ≡ count + 1) }
    ensures passed { (g : List ℕ → Option ℕ) → ((x : ShortList) (b : Bool) → F.post passes.now x b → b ≡ is_some (g (listed x))) → Passed job.now g count (listed bag ∷ []) result }
{
    if passes(bag) {
        return Ok(count + 1);
    }
    Err(job.obligation(bag))
}

/// Goes through the bags that begin with the places chosen and then `from`, and go on with `left` places, none of them
/// below `from`; only if that beginning can be completed.
#[cycle(first_open_go_down)]
fn go_down<F: Fn(ShortList) -> bool>(
    job: &Job,
    passes: &F,
    chosen: ShortList,
    from: u8,
    left: usize,
    count: u32,
) -> Result<u32, Obligation>
    requires callable { F.IsAlwaysCallable passes.now }
    requires sized { length (listed chosen) + 1 + left ≡ length (listed job.now.flows.takes) }
    requires room { count + length (lists_from ((other_of job.now).places - from) from left) < 2 ^ 32 }
    ensures counted { IfOk result (λ n. n ≡ count + length (bags_after (mover_of job.now) (related_by job.now) job.now.t (listed chosen ++ from ∷ []) ((other_of job.now).places - from) from left)) }
    ensures passed { (g : List ℕ → Option ℕ) → ((x : ShortList) (b : Bool) → F.post passes.now x b → b ≡ is_some (g (listed x))) → Passed job.now g count (bags_after (mover_of job.now) (related_by job.now) job.now.t (listed chosen ++ from ∷ []) ((other_of job.now).places - from) from left) result }
{
    let mut chosen = chosen;
    let _ = chosen.push(from);
    if !completes(job.half, job.flows.takes, chosen.as_slice(), from) {
        return Ok(count);
    }
    first_open(job, passes, chosen, from, left, count)
}

/// Goes through the bags that begin with the places chosen and go on with `left` places, none of them below `from`. Gives
/// how many there are, added to `count`, where all pass; or the obligation of the first that does not.
#[cycle(first_open_go_down)]
pub(crate) fn first_open<F: Fn(ShortList) -> bool>(
    job: &Job,
    passes: &F,
    chosen: ShortList,
    from: u8,
    left: usize,
    count: u32,
) -> Result<u32, Obligation>
    requires callable { F.IsAlwaysCallable passes.now }
    requires sized { length (listed chosen) + left ≡ length (listed job.now.flows.takes) }
    requires room { count + length (lists_from ((other_of job.now).places - from) from left) < 2 ^ 32 }
    requires known { left ≡ 0 → obliges (mover_of job.now) (related_by job.now) job.now.t (listed chosen) ≡ true }
    ensures counted { IfOk result (λ n. n ≡ count + length (bags_after (mover_of job.now) (related_by job.now) job.now.t (listed chosen) ((other_of job.now).places - from) from left)) }
    ensures passed { (g : List ℕ → Option ℕ) → ((x : ShortList) (b : Bool) → F.post passes.now x b → b ≡ is_some (g (listed x))) → Passed job.now g count (bags_after (mover_of job.now) (related_by job.now) job.now.t (listed chosen) ((other_of job.now).places - from) from left) result }
{
    if left == 0 {
        return pass(job, passes, chosen, count);
    }
    if from >= job.half.other.places() {
        return Ok(count);
    }
    let seen = go_down(job, passes, chosen, from, left - 1, count)?;
    first_open(job, passes, chosen, from + 1, left, seen)
}
