//! The token of a text at a line and a column.
ghost use Rattle.std.specs.Prelude.{◌≡◌};
ghost use Rattle.faults.specs.Faults.{line_from, word_at};
ghost use Rattle.lines.specs.Lines.{lines};
ghost use Rattle.lines.specs.Words.{words};

use lines::{LineCursor, WordCursor};

/// The line with a number, counted from 1; an empty part of the text where there is none.
pub(crate) fn line_at(text: &[u8], number: usize) -> &[u8]
    ensures { result.now ≡ line_from 1 number (lines text.now) }
{
    let Some(before) = number.checked_sub(1) else {
        return &text[..0];
    };
    LineCursor::of(text).nth(before).unwrap_or(&text[..0])
}

/// The word of a line at a column; an empty part of the line where none begins there.
pub(crate) fn word_at(line: &[u8], column: usize) -> &[u8]
    ensures { result.now ≡ word_at column (words 1 line.now) }
{
    WordCursor::of(line)
        .find(|word| word.column == column)
        .map_or(&line[..0], |word| word.bytes)
}
