//! What is printed of a case: each struct is a value with the names of the case's nets.
use crate::cases::{Case, Outcome, Owed};
use std::fmt;

/// The pairs of the relation, of a left and a right place.
#[derive(Clone, Copy)]
pub struct NamedRelation<'a> {
    pub case: &'a Case<'a>,
}

impl fmt::Display for NamedRelation<'_> {
    fn fmt<W: fmt::Write>(&self, f: &mut fmt::Formatter<W>) -> fmt::Result {
        for (left, right) in self.case.relation {
            let start = self.case.left.place(*left);
            let end = self.case.right.place(*right);
            write!(f, " ({start},{end})")?;
        }
        Ok(())
    }
}

/// An obligation: the side, its transition, and the places of the other net.
#[derive(Clone, Copy)]
pub struct NamedOwed<'a, 'b> {
    pub case: &'a Case<'a>,
    pub owed: Owed<'b>,
}

impl fmt::Display for NamedOwed<'_, '_> {
    fn fmt<W: fmt::Write>(&self, f: &mut fmt::Formatter<W>) -> fmt::Result {
        let side = self.owed.side;
        let other = self.case.other(side);
        let transition = self.case.mover(side).transition(self.owed.transition);
        write!(f, "{side} {transition} at")?;
        for place in self.owed.bag {
            let place = other.place(*place);
            write!(f, " {place}")?;
        }
        Ok(())
    }
}

/// A verdict.
#[derive(Clone, Copy)]
pub struct NamedOutcome<'a, 'b> {
    pub case: &'a Case<'a>,
    pub outcome: Outcome<'b>,
}

impl fmt::Display for NamedOutcome<'_, '_> {
    fn fmt<W: fmt::Write>(&self, f: &mut fmt::Formatter<W>) -> fmt::Result {
        match self.outcome {
            Ok(count) => write!(f, "accepted {count}"),
            Err(refused) => {
                let number = refused.number;
                let owed = NamedOwed {
                    case: self.case,
                    owed: refused.owed,
                };
                write!(f, "refused {number} {owed}")
            }
        }
    }
}
