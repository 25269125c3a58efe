//! Obligations, and the refusal of a relation.
ghost use Rattle.std.specs.Prelude.{◌≡◌};
ghost use Rattle.verdict.specs.declared.obligation.VerdictRefusal.TheVariants.{Unsound};
ghost use Rattle.verdict.specs.Results.{answered_at, blank_entry, list_number, verdict_number, unsound_at, obligation_at};

use crate::place_list::PlaceList;
use places::Side;

/// An obligation: a transition of one side, and a bag of places of the other side that is related to its pre-set, as an
/// ascending list.
#[derive(Clone, Copy, Debug, PartialEq, Eq)]
pub struct Obligation {
    pub side: Side,
    pub transition: u8,
    pub bag: PlaceList,
}

/// An obligation and its answer, or none.
#[derive(Clone, Copy, Debug, PartialEq, Eq)]
pub struct AnsweredObligation {
    pub obligation: Obligation,
    pub answer: Option<u8>,
}

impl AnsweredObligation {
    /// An entry with nothing in it, to fill a slice with before the answers are listed.
    pub fn blank() -> AnsweredObligation
        ensures { answered_at result ≡ blank_entry }
    {
        let obligation = Obligation {
            side: Side::Left,
            transition: 0,
            bag: PlaceList::new(),
        };
        AnsweredObligation {
            obligation,
            answer: None,
        }
    }
}

/// Why a relation is refused.
#[derive(Clone, Copy, Debug, PartialEq, Eq)]
pub enum VerdictRefusal {
    /// 34: the relation is no place bisimulation. With it comes the first obligation that has no answer.
    Unsound(Obligation),
}

impl VerdictRefusal {
    /// The number of the refusal.
    pub fn number(&self) -> u8
        ensures { result ≡ verdict_number self.now }
    {
        match self {
            VerdictRefusal::Unsound(_) => 34,
        }
    }

    /// The obligation that has no answer.
    pub fn obligation(self) -> Obligation
        ensures { obligation_at result ≡ unsound_at self }
    {
        match self {
            VerdictRefusal::Unsound(obligation) => obligation,
        }
    }
}

impl From<Obligation> for VerdictRefusal {
    ghost from_gives = { λ o r. r ≡ Unsound o };

    fn from(obligation: Obligation) -> VerdictRefusal {
        VerdictRefusal::Unsound(obligation)
    }
}

/// Why the list of answers is refused.
#[derive(Clone, Copy, Debug, PartialEq, Eq)]
pub enum ListRefusal {
    /// 21: the caller's entries are too few.
    TooFew,
}

impl ListRefusal {
    /// The number of the refusal.
    pub fn number(&self) -> u8
        ensures { result ≡ list_number self.now }
    {
        match self {
            ListRefusal::TooFew => 21,
        }
    }
}
