//! Relation texts: the DIMACS edge layout, read into a relation of places or one exact fault.

#![tactic(auto)]

ghost use Rattle.std.specs.Prelude.{◌≡◌};
ghost use Rattle.relation_texts.specs.Exactly.{FaultsExactly, ReadOrFault, RelationExactly};
ghost use Rattle.relation_texts.specs.Misfits.{MisfitsExactly};
ghost use Rattle.relation_texts.specs.Outcomes.{outcome_of};
ghost use Rattle.relation_texts.specs.Walk.{relation_text};
ghost use Rattle.relation_texts.specs.Written.{FormsExactly};

use faults::{Cause, TextFault};
use places::Relation;

mod forms;
mod reading;
mod text;

/// What a relation text says between a left net and a right net of so many places (more than 16 count as 16): the
/// relation, or the fault.
pub fn read_relation<'a>(
    text: &'a [u8],
    left_places: u8,
    right_places: u8,
) -> Result<Relation, TextFault<'a>>
    ensures { outcome_of result ≡ relation_text text.now left_places right_places }
{
    if text.len() > 4096 {
        return Err(TextFault::new(Cause::RelationTooLong, text, 0, 0));
    }
    text::read_lines(text, left_places.min(16), right_places.min(16))
}

/// A fault is reported exactly when it is its line's first, by the numbers of the faults, and no earlier line has one;
/// or when no line has one, and the header is missing or announces another number of pairs; or when the text is too
/// long.
pub fn faults_are_exact()
    ensures { FaultsExactly }
{}

/// A relation is read exactly when there is nothing to report, and it has exactly the pairs of the text's `e` lines.
pub fn relation_is_exact()
    ensures { RelationExactly }
{}

/// Some relation is read exactly when there is no fault to report.
pub fn read_or_fault()
    ensures { ReadOrFault }
{}

/// A line says something exactly when it is written so: blank, a comment, `p edge N M` or `e W V`.
pub fn forms_are_exact()
    ensures { FormsExactly }
{}

/// A line fits no form at a column exactly when it stops fitting there: at the first token with which no line that fits
/// begins, or one past the last byte, where a token is missing.
pub fn misfits_are_exact()
    ensures { MisfitsExactly }
{}
