//! Whether one net may stand in for another under a relation of their places.

#![tactic(auto)]

ghost use Rattle.nets.specs.Tables.{table_meaning};
ghost use Rattle.places.specs.Meanings.{bag_of, relation_of};
ghost use Rattle.verdict.specs.Results.{Answers, Judges, ListsAnswers};

use answering::give_answer;
use judging::judge;
use listing::write_answers;
use nets::{Net, Table};
use places::{PlaceBag, Relation, Side};
use two_nets::TwoNets;

mod answering;
mod answers;
mod half;
mod job;
mod judging;
mod listing;
mod matching;
mod obligation;
mod outline;
mod pairs;
mod place_list;
mod short_list;
mod sides;
mod two_nets;
mod walk;
mod writing;

pub use obligation::{AnsweredObligation, ListRefusal, Obligation, VerdictRefusal};
pub use place_list::PlaceList;

/// The verdict on two plain tables: whether the relation, without the pairs that name a place which either net lacks, is
/// a place bisimulation. Accepted with the number of obligations, or refused with the first that has no answer.
pub fn verdict_on_tables(
    left: &Table,
    right: &Table,
    relation: &Relation,
) -> Result<u32, VerdictRefusal>
    ensures { Judges (table_meaning left.now) (table_meaning right.now) (relation_of relation.now) result }
{
    judge(&TwoNets {
        left,
        right,
        relation,
    })
}

/// The same verdict on any two nets, which are copied to plain tables first.
pub fn verdict<L: Net, R: Net>(
    left: &L,
    right: &R,
    relation: &Relation,
) -> Result<u32, VerdictRefusal>
    ensures { Judges (L.Net.meaning left.now) (R.Net.meaning right.now) (relation_of relation.now) result }
{
    verdict_on_tables(&Table::of(left), &Table::of(right), relation)
}

/// The answer to a transition of one side and a bag of places of the other side: the lowest transition of the other
/// side that answers; none where none does, and where the transition and the bag are no obligation.
pub fn answer<L: Net, R: Net>(
    left: &L,
    right: &R,
    relation: &Relation,
    side: Side,
    transition: u8,
    bag: &PlaceBag,
) -> Option<u8>
    ensures { Answers (L.Net.meaning left.now) (R.Net.meaning right.now) (relation_of relation.now) side transition (bag_of bag.now) result }
{
    let nets = TwoNets {
        left: &Table::of(left),
        right: &Table::of(right),
        relation,
    };
    give_answer(&nets, side, transition, bag)
}

/// The obligations in order, left before right, then by transition, then in dictionary order of their bags, each with
/// its answer or none, written to the front of `out`. Gives how many there are; refused where `out` is too short.
pub fn list_answers<L: Net, R: Net>(
    left: &L,
    right: &R,
    relation: &Relation,
    out: &mut [AnsweredObligation],
) -> Result<usize, ListRefusal>
    ensures { ListsAnswers (L.Net.meaning left.now) (R.Net.meaning right.now) (relation_of relation.now) out.old result out.new }
{
    let nets = TwoNets {
        left: &Table::of(left),
        right: &Table::of(right),
        relation,
    };
    write_answers(&nets, out)
}
