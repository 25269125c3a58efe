//! The answer to one obligation.
ghost use Rattle.std.specs.Prelude.{◌≡◌, ◌≤◌};
ghost use Rattle.bisimulation.specs.Bisimulation.{between};
ghost use Rattle.bisimulation.specs.Lists.{list_of};
ghost use Rattle.bisimulation.specs.Verdicts.{answer_for, answer_on};
ghost use Rattle.nets.specs.Tables.{table_meaning};
ghost use Rattle.places.specs.Meanings.{bag_of, relation_of};
ghost use Rattle.places.specs.Sets.{size};
ghost use Rattle.verdict.specs.ShortLists.{listed};
ghost use Rattle.verdict.specs.Relating.{pairs_of};
ghost use Rattle.verdict.specs.Results.{Answers};

use crate::answers::{find_answer, is_blocked};
use crate::half::Half;
use crate::job::Job;
use crate::matching::related;
use crate::outline::{flows_of, outline_of, pile_on};
use crate::short_list::ShortList;
use crate::two_nets::TwoNets;
use bisimulation::answer_given;
use nets::Net;
use places::{PlaceBag, Side};

/// The ascending list of a bag of up to four tokens.
fn bag_list(bag: &PlaceBag) -> ShortList
    requires { size (bag_of bag.now) ≤ 4 }
    ensures { listed result ≡ list_of 16 (bag_of bag.now) }
{
    let mut list = ShortList::new();
    for p in 0..16u8 {
        pile_on(&mut list, p, bag.count(p));
    }
    list
}

/// The answer to a transition and a list of up to four places. The lists of the other net's transitions are made only where
/// the transition and the list are an obligation.
fn answer_list(half: &Half, t: u8, ys: ShortList) -> Option<u8>
    ensures { result ≡ answer_for (table_meaning half.now.mover.now) (table_meaning half.now.other.now) (pairs_of half.now.pairs) t (listed ys) }
{
    if t >= half.mover.transitions()
        || is_blocked(half.mover, t)
        || !related(half, flows_of(half.mover, t).takes, ys.as_slice())
    {
        return None;
    }
    let outline = outline_of(half.other);
    let job = Job::of(half, &outline, t)?;
    find_answer(&job, ys.as_slice())
}

/// The answer on one side.
fn answer_half(half: &Half, t: u8, bag: &PlaceBag) -> Option<u8>
    ensures { result ≡ answer_for (table_meaning half.now.mover.now) (table_meaning half.now.other.now) (pairs_of half.now.pairs) t (list_of 16 (bag_of bag.now)) }
{
    if bag.size() > 4 {
        return None;
    }
    answer_list(half, t, bag_list(bag))
}

/// The answer on either side.
fn answer_value(nets: &TwoNets, side: Side, t: u8, bag: &PlaceBag) -> Option<u8>
    ensures { result ≡ answer_on (table_meaning nets.now.left.now) (table_meaning nets.now.right.now) (between (table_meaning nets.now.left.now) (table_meaning nets.now.right.now) (relation_of nets.now.relation.now)) side t (list_of 16 (bag_of bag.now)) }
{
    answer_half(&nets.half(side), t, bag)
}

/// The answer, with what it is in words.
pub(crate) fn give_answer(nets: &TwoNets, side: Side, t: u8, bag: &PlaceBag) -> Option<u8>
    ensures { Answers (table_meaning nets.now.left.now) (table_meaning nets.now.right.now) (relation_of nets.now.relation.now) side t (bag_of bag.now) result }
{
    answer_given();
    answer_value(nets, side, t, bag)
}
