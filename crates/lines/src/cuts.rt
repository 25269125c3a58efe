//! The next line of a text, and the next word of a line.
ghost use Rattle.std.specs.Prelude.{◌≡◌, ◌<◌, ◌≤◌, [], ◌∷◌, length, IfSome, MatchOption};
ghost use Rattle.lines.specs.Cursors.{GivesWord};
ghost use Rattle.lines.specs.Lines.{lines};

use crate::bytes::{leading, past_first};
use crate::word_cursor::{Word, WordCursor};

/// The first line of a text, and what stands behind the LF that ends it; none of the empty text.
pub(crate) fn cut_line(text: &[u8]) -> Option<(&[u8], &[u8])>
    ensures cut { MatchOption result ((lines text.now ≡ []) × (length text.now ≡ 0)) (λ p. lines text.now ≡ p.0.now ∷ lines p.1.now) }
    ensures shorter { IfSome result (λ p. (length p.1.now < length text.now) × (length p.0.now ≤ length text.now)) }
{
    if text.is_empty() {
        return None;
    }
    let (line, rest) = text.split_at(leading(text, |b| b != b'\n'));
    Some((line, past_first(rest)))
}

/// The next word of a cursor, and the cursor behind the word; where there is no word, none, and the cursor one past the
/// last byte.
pub(crate) fn cut_word(cursor: WordCursor<'_>) -> (Option<Word<'_>>, WordCursor<'_>)
    ensures { GivesWord cursor.entry result.0 result.1 }
{
    let gap = leading(cursor.rest, |b| b == b' ');
    let (_, front) = cursor.rest.split_at(gap);
    let column = cursor.column + gap;
    let long = leading(front, |b| b != b' ');
    let (bytes, rest) = front.split_at(long);
    let behind = WordCursor {
        column: column + long,
        rest,
    };
    if long == 0 {
        (None, behind)
    } else {
        (Some(Word { column, bytes }), behind)
    }
}
