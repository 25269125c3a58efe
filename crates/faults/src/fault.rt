//! A fault of a text.
ghost use Rattle.std.specs.Prelude.{◌≡◌};
ghost use Rattle.faults.specs.Faults.{fault_of, in_line, token_of};
ghost use Rattle.faults.specs.Numbers.{text_fault};

use crate::causes::{Cause, Flaw, LineFault};
use crate::tokens::{line_at, word_at};

/// A fault of a text: what is wrong, the text, the line and the column, both counted from 1. For a text that is too
/// long both are 0.
#[derive(Clone, Copy, Debug, PartialEq, Eq)]
pub struct TextFault<'a> {
    cause: Cause,
    text: &'a [u8],
    // Plain numbers, and none an `Option`: the table of refusals gives a text that is too long line 0 and column 0.
    line: usize,
    column: usize,
}

impl<'a> TextFault<'a> {
    /// A fault of a text.
    pub fn new(cause: Cause, text: &'a [u8], line: usize, column: usize) -> TextFault<'a>
        ensures { fault_of result ≡ record { cause = cause; text = text.now; line = line; column = column } }
    {
        TextFault {
            cause,
            text,
            line,
            column,
        }
    }

    /// A flaw of a line, as a fault of the text.
    pub fn in_line(flaw: Flaw<LineFault>, text: &'a [u8], line: usize) -> TextFault<'a>
        ensures { fault_of result ≡ in_line text.now line flaw }
    {
        TextFault::new(flaw.cause.into(), text, line, flaw.column)
    }

    /// The number of the fault.
    pub fn number(&self) -> u8
        ensures { result ≡ text_fault (fault_of self.now).cause }
    {
        let cause = self.cause();
        cause.number()
    }

    /// What is wrong.
    pub fn cause(&self) -> Cause
        ensures { result ≡ (fault_of self.now).cause }
    {
        self.cause
    }

    /// The whole text.
    pub fn text(&self) -> &'a [u8]
        ensures { result.now ≡ (fault_of self.now).text }
    {
        self.text
    }

    /// The number of the line, counted from 1; 0 for a text that is too long.
    pub fn line(&self) -> usize
        ensures { result ≡ (fault_of self.now).line }
    {
        self.line
    }

    /// The column, counted from 1; 0 for a text that is too long.
    pub fn column(&self) -> usize
        ensures { result ≡ (fault_of self.now).column }
    {
        self.column
    }

    /// The token at fault, as a part of the text: the token that begins at that line and column, and an empty part where
    /// none begins there.
    pub fn token(&self) -> &'a [u8]
        ensures { result.now ≡ token_of (fault_of self.now) }
    {
        word_at(line_at(self.text, self.line), self.column)
    }
}
