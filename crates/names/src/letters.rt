//! Which bytes are a name.
ghost use Rattle.std.specs.Prelude.{◌≡◌};
ghost use Rattle.names.specs.Names.{is_letter, is_tail, all_tail, valid_name};

/// Whether a byte is an ASCII letter.
fn starts_name(b: u8) -> bool
    ensures { result ≡ is_letter b }
{
    b.is_ascii_alphabetic()
}

/// Whether a byte is a letter, an ASCII digit or an underscore.
fn continues_name(b: u8) -> bool
    ensures { result ≡ is_tail b }
{
    b.is_ascii_alphanumeric() || b == b'_'
}

/// Whether every byte is a letter, a digit or an underscore.
fn all_continue(bytes: &[u8]) -> bool
    ensures { result ≡ all_tail bytes.now }
{
    bytes.iter().all(|b| continues_name(*b))
}

/// Whether the bytes are a name.
pub(crate) fn is_name(bytes: &[u8]) -> bool
    ensures { result ≡ valid_name bytes.now }
{
    match bytes {
        [] => false,
        [first, rest @ ..] => starts_name(*first) && bytes.len() <= 8 && all_continue(rest),
    }
}
