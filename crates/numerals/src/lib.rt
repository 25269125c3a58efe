//! Numbers as texts write them: one to five digits.

#![tactic(auto)]

ghost use Rattle.std.specs.Prelude.{◌≡◌, true};
ghost use Rattle.numerals.specs.Numerals.{all_digits, is_numeral, numeral, starts_with_zero, value_after};

/// A number that was written out: its value, and whether a zero stands before another digit.
#[derive(Clone, Copy, Debug, PartialEq, Eq)]
pub struct Numeral {
    // The value stands where the numeral is padded too: to one reader the number is wrong then, to another its form.
    pub value: u32,
    pub padded: bool,
}

/// The number that a word writes out; none where it is not one to five digits.
pub fn read_numeral(word: &[u8]) -> Option<Numeral>
    ensures { result ≡ numeral word.now }
{
    is_numeral(word).then(|| Numeral {
        value: value(word),
        padded: starts_with_zero(word),
    })
}

/// Whether every byte is a digit.
fn all_digits(word: &[u8]) -> bool
    ensures { result ≡ all_digits word.now }
{
    word.iter().all(|b| b.is_ascii_digit())
}

/// Whether a word is one to five digits.
fn is_numeral(word: &[u8]) -> bool
    ensures { result ≡ is_numeral word.now }
{
    (1..=5).contains(&word.len()) && all_digits(word)
}

/// Whether a zero stands before another digit.
fn starts_with_zero(word: &[u8]) -> bool
    ensures { result ≡ starts_with_zero word.now }
{
    matches!(word, [b'0', _, ..])
}

/// The value of one to five digits.
fn value(word: &[u8]) -> u32
    requires { is_numeral word.now ≡ true }
    ensures { result ≡ value_after 0 word.now }
{
    word.iter().fold(0, |n, b| n * 10 + u32::from(b - b'0'))
}
