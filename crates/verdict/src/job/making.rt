ghost use Rattle.std.specs.Prelude.{◌≡◌, ℕ, List, false, MatchOption};
ghost use Rattle.bisimulation.specs.Verdicts.{obliges};
ghost use Rattle.nets.specs.Tables.{table_meaning};
ghost use Rattle.verdict.specs.Relating.{pairs_of, Outlined};
ghost use Rattle.verdict.specs.Results.{at, obligation_at};
ghost use Rattle.verdict.specs.ShortLists.{listed};

use super::*;
use crate::answers::is_blocked;
use crate::obligation::Obligation;
use crate::outline::flows_of;
use crate::place_list::PlaceList;
use crate::short_list::ShortList;
use nets::Net;

impl<'a, 'b> Job<'a, 'b> {
    /// The job of a transition; none where it has no obligations, since it is not there or self-blocked.
    pub(crate) fn of(half: &'b Half<'a>, outline: &'b [Flows; 32], t: u8) -> Option<Job<'a, 'b>>
        requires { Outlined (table_meaning half.now.other.now) outline.now }
        ensures { MatchOption result ((ys : List ℕ) → obliges (table_meaning half.now.mover.now) (pairs_of half.now.pairs) t ys ≡ false) (λ j. (j.half.now ≡ half.now) × (j.t ≡ t)) }
    {
        if t >= half.mover.transitions() || is_blocked(half.mover, t) {
            return None;
        }
        Some(Job {
            half,
            outline,
            t,
            flows: flows_of(half.mover, t),
        })
    }

    /// The obligation of the job's transition and the bag of a list.
    pub(crate) fn obligation(&self, bag: ShortList) -> Obligation
        ensures { obligation_at result ≡ at self.now.half.now.side self.now.t (listed bag) }
    {
        Obligation {
            side: self.half.side,
            transition: self.t,
            bag: PlaceList::of(bag),
        }
    }
}
