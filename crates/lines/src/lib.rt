//! A text cut into lines, and a line into words with their columns.

#![tactic(auto)]

ghost use Rattle.lines.specs.Laws.{LinesJoin, WordsRebuild};

mod bytes;
mod cuts;
mod line_cursor;
mod word_cursor;

pub use line_cursor::LineCursor;
pub use word_cursor::{Word, WordCursor};

/// The lines of a text, each with LF behind it, are the text, up to a last LF that the text may lack.
pub fn lines_join()
    ensures { LinesJoin }
{}

/// The words of a line, put back at their columns with spaces elsewhere, are the line; they are not empty, have no
/// space in them, and have a space between one another.
pub fn words_rebuild()
    ensures { WordsRebuild }
{}
