//! The forms of the lines of a relation text.
ghost use Rattle.std.specs.Prelude.{◌≡◌, Some, Ok, Err};
ghost use Rattle.lines.specs.Cursors.{words_left};
ghost use Rattle.numerals.specs.Numerals.{numeral};
ghost use Rattle.relation_texts.specs.Forms.{edge_line, header_line, no_form, number_first, plain, said, said_by, two_numbers};

use faults::{Flaw, LineFault};
use lines::WordCursor;
use numerals::read_numeral;

/// A number of a line, with its column.
#[derive(Clone, Copy, Debug, PartialEq, Eq)]
pub(crate) struct Count {
    pub(crate) column: usize,
    pub(crate) value: u32,
}

/// What a line says that fits a form.
#[derive(Clone, Copy, Debug, PartialEq, Eq)]
pub(crate) enum Said {
    /// The line is blank or a comment.
    Nothing,
    /// `p edge N M`: the column of the `p`, the number of places and the number of pairs.
    Header {
        column: usize,
        places: Count,
        pairs: Count,
    },
    /// `e W V`: the column of the `e`, the left place and the right place.
    Edge {
        column: usize,
        left: Count,
        right: Count,
    },
}

/// The flaw of a line that fits no form.
fn misfit(column: usize) -> Flaw<LineFault>
    ensures { result ≡ no_form column }
{
    Flaw {
        cause: LineFault::RelationForm,
        column,
    }
}

/// The number that a word writes out with no zero before another digit.
fn plain_number(word: &[u8]) -> Option<u32>
    ensures { result ≡ plain (numeral word.now) }
{
    read_numeral(word).filter(|n| !n.padded).map(|n| n.value)
}

/// The next word, which has to be a number.
fn next_number(words: &mut WordCursor) -> Result<Count, Flaw<LineFault>>
    ensures { elim result [ Ok n ↦ number_first (words_left words.old) ≡ Ok (n, words_left words.new) | Err f ↦ number_first (words_left words.old) ≡ Err f ] }
{
    let word = words.next().ok_or(misfit(words.column()))?;
    let value = plain_number(word.bytes).ok_or(misfit(word.column))?;
    Ok(Count {
        column: word.column,
        value,
    })
}

/// Two numbers, and nothing behind them.
fn two_numbers(mut words: WordCursor) -> Result<(Count, Count), Flaw<LineFault>>
    ensures { result ≡ two_numbers (words_left words.entry) }
{
    let first = next_number(&mut words)?;
    let second = next_number(&mut words)?;
    match words.next() {
        None => Ok((first, second)),
        Some(word) => Err(misfit(word.column)),
    }
}

/// What stands behind the `p` at a column: `edge`, and two numbers.
fn header(column: usize, mut words: WordCursor) -> Result<Said, Flaw<LineFault>>
    ensures { result ≡ header_line column (words_left words.entry) }
{
    let word = words.next().ok_or(misfit(words.column()))?;
    if !word.is(b"edge") {
        return Err(misfit(word.column));
    }
    let (places, pairs) = two_numbers(words)?;
    Ok(Said::Header {
        column,
        places,
        pairs,
    })
}

/// What stands behind the `e` at a column: two numbers.
fn edge(column: usize, words: WordCursor) -> Result<Said, Flaw<LineFault>>
    ensures { result ≡ edge_line column (words_left words.entry) }
{
    let (left, right) = two_numbers(words)?;
    Ok(Said::Edge {
        column,
        left,
        right,
    })
}

/// What a line says whose first word is at a column and is this character alone.
fn said_by(first: char, column: usize, words: WordCursor) -> Result<Said, Flaw<LineFault>>
    ensures { result ≡ said_by (Some first) column (words_left words.entry) }
{
    match first {
        'c' => Ok(Said::Nothing),
        'p' => header(column, words),
        'e' => edge(column, words),
        _ => Err(misfit(column)),
    }
}

/// What a line says.
pub(crate) fn what_is_said(mut words: WordCursor) -> Result<Said, Flaw<LineFault>>
    ensures { result ≡ said (words_left words.entry) }
{
    let Some(word) = words.next() else {
        return Ok(Said::Nothing);
    };
    match word.bytes {
        [first] => said_by(char::from(*first), word.column, words),
        _ => Err(misfit(word.column)),
    }
}
