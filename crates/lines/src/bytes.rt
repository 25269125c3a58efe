//! Looking for a byte.
ghost use Rattle.std.specs.Prelude.{◌≡◌, ℕ, ◌-◌, ◌≤◌, Bool, length, drop};
ghost use Rattle.std.specs.List.{prefix_len};

/// How many bytes in front pass a test.
pub(crate) fn leading<F: Fn(u8) -> bool>(bytes: &[u8], passes: F) -> usize
    requires { F.IsAlwaysCallable passes }
    ensures value { (p : ℕ → Bool) → ((x : ℕ) (r : Bool) → F.post passes x r → r ≡ p x) → result ≡ prefix_len p bytes.now }
    ensures within { result ≤ length bytes.now }
{
    bytes.iter().take_while(|x| passes(**x)).count()
}

/// The bytes behind the first.
pub(crate) fn past_first(bytes: &[u8]) -> &[u8]
    ensures value { result.now ≡ drop 1 bytes.now }
    ensures shorter { length result.now ≡ length bytes.now - 1 }
{
    bytes.get(1..).unwrap_or(bytes)
}
