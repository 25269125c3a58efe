//! The lines of a relation text.
ghost use Rattle.std.specs.Prelude.{◌≡◌};
ghost use Rattle.lines.specs.Lines.{lines};
ghost use Rattle.relation_texts.specs.Outcomes.{outcome_of};
ghost use Rattle.relation_texts.specs.Walk.{nothing_yet, walk};

use crate::reading::Reading;
use faults::TextFault;
use lines::LineCursor;
use places::Relation;

/// The relation that a text says between a left net and a right net of so many places, or its fault: line by line from
/// the first.
pub(crate) fn read_lines(text: &[u8], left: u8, right: u8) -> Result<Relation, TextFault<'_>>
    ensures { outcome_of result ≡ walk text.now left right 1 nothing_yet (lines text.now) }
{
    let mut reading = Reading::between(left, right);
    for (number, line) in (1..).zip(LineCursor::of(text)) {
        reading
            .take_line(line, number)
            .map_err(|flaw| TextFault::in_line(flaw, text, number))?;
    }
    reading.finish(text)
}
