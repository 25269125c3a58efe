//! The number that a name is packed into, and the way back.
ghost use Rattle.std.specs.Prelude.{◌≡◌, true, false, length, slice_index};
ghost use Rattle.names.specs.Names.{valid_name, packed, IsName};
ghost use Rattle.names.specs.Numbers.{before_zero, bytes_in, text_in, is_packed};
ghost use Rattle.names.specs.Written.{Written};

use crate::letters::is_name;
use std::array;

/// The number of the first 8 bytes, with 0 for a byte behind the end.
fn pack_bytes(bytes: &[u8]) -> u64
    ensures { result ≡ packed bytes.now }
{
    u64::from_be_bytes(array::from_fn(|i| bytes.get(i).copied().unwrap_or(0)))
}

/// The number that a name is packed into.
pub(crate) fn pack(bytes: &[u8]) -> u64
    requires { valid_name bytes.now ≡ true }
    ensures value { result ≡ packed bytes.now }
    ensures named { is_packed result ≡ true }
    ensures text { text_in result ≡ bytes.now }
{
    pack_bytes(bytes)
}

/// How many bytes stand before the first zero byte.
fn zero_at(bytes: &[u8]) -> usize
    ensures { result ≡ length (before_zero bytes.now) }
{
    bytes.iter().take_while(|b| **b != 0).count()
}

/// The bytes of a number, the highest first.
fn bytes_of(number: u64) -> [u8; 8]
    ensures { result ≡ bytes_in 8 number }
{
    number.to_be_bytes()
}

/// How many bytes the name has that is packed into a number.
pub(crate) fn text_len(number: u64) -> usize
    ensures { result ≡ length (text_in number) }
{
    zero_at(&bytes_of(number))
}

/// Whether the bytes in front of the first zero byte are a name, and packed into the number.
fn holds_name(number: u64) -> bool
    ensures { result ≡ is_packed number }
{
    let bytes = bytes_of(number);
    let (text, _) = bytes.split_at(zero_at(&bytes));
    is_name(text) && pack_bytes(text) == number
}

/// Whether a name is packed into the number.
pub(crate) fn is_packed_name(number: u64) -> bool
    ensures value { result ≡ is_packed number }
    ensures yes { result ≡ true → IsName number }
    ensures no { result ≡ false → IsName number → ⊥ }
{
    holds_name(number)
}

/// Writes the bytes of the name that is packed into a number, and zero bytes behind them.
pub(crate) fn write_text(number: u64, out: &mut [u8; 8]) -> usize
    requires { is_packed number ≡ true }
    ensures { Written number result out.new }
{
    *out = bytes_of(number);
    text_len(number)
}
