//! Numbers that have to lie in a range.
ghost use Rattle.std.specs.Prelude.{◌≡◌, Some, None, MatchOption};
ghost use Rattle.items.specs.Numbers.{closed, marking, marking_by, ranged, ranged_numeral};
ghost use Rattle.numerals.specs.Numerals.{numeral};

use faults::NumberFault;
use numerals::{Numeral, read_numeral};

/// The value of a numeral, from the least to the most.
fn in_range(n: Numeral, least: u8, most: u8) -> Result<u8, NumberFault>
    ensures { result ≡ ranged least most n }
{
    if n.padded {
        return Err(NumberFault::LeadingZero);
    }
    u8::try_from(n.value)
        .ok()
        .filter(|v| (least..=most).contains(v))
        .ok_or(NumberFault::OutOfRange)
}

/// The value of digits, from the least to the most; none where they are no numeral.
pub(crate) fn ranged_numeral(digits: &[u8], least: u8, most: u8) -> Option<Result<u8, NumberFault>>
    ensures { result ≡ ranged_numeral least most (numeral digits.now) }
{
    read_numeral(digits).map(|n| in_range(n, least, most))
}

/// The bytes before a last `)`; none where the last byte is another.
fn before_close(bytes: &[u8]) -> Option<&[u8]>
    ensures { MatchOption result (closed bytes.now ≡ None) (λ ds. closed bytes.now ≡ Some ds.now) }
{
    match bytes {
        [digits @ .., b')'] => Some(digits),
        _ => None,
    }
}

/// The tokens of a marking, by what stands behind its `(`.
fn closed_marking(bytes: &[u8]) -> Option<Result<u8, NumberFault>>
    ensures { result ≡ marking_by (closed bytes.now) }
{
    let digits = before_close(bytes)?;
    ranged_numeral(digits, 0, 64)
}

/// The tokens of a marking, by the bytes of its word.
pub(crate) fn marking(word: &[u8]) -> Option<Result<u8, NumberFault>>
    ensures { result ≡ marking word.now }
{
    match word {
        [b'(', rest @ ..] => closed_marking(rest),
        _ => None,
    }
}
