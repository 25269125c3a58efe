ghost use Rattle.std.specs.Prelude.{◌≡◌, true, false, length, MatchOption};
ghost use Rattle.names.specs.Meanings.{number_of, text_of};
ghost use Rattle.names.specs.Names.{valid_name, packed, IsName};
ghost use Rattle.names.specs.Numbers.{is_packed};
ghost use Rattle.names.specs.Written.{Written};

use super::*;
use crate::letters::is_name;
use crate::numbers::{is_packed_name, pack, text_len, write_text};

impl Name {
    /// The name that is packed into a number.
    fn packed(number: u64) -> Name
        requires { is_packed number ≡ true }
        ensures { number_of result ≡ number }
    {
        Name { word: number }
    }

    // `of` and `from_number` are no `TryFrom`: an error would have nothing to say beside that there is no name.

    /// The name of these bytes; none where they are no name.
    pub fn of(bytes: &[u8]) -> Option<Name>
        ensures { MatchOption result (valid_name bytes.now ≡ false) (λ n. (valid_name bytes.now ≡ true) × (number_of n ≡ packed bytes.now) × (text_of n ≡ bytes.now)) }
    {
        is_name(bytes).then(|| Name::packed(pack(bytes)))
    }

    /// The name that is packed into `number`; none where no name is.
    pub fn from_number(number: u64) -> Option<Name>
        ensures { MatchOption result (IsName number → ⊥) (λ n. IsName number × (number_of n ≡ number)) }
    {
        is_packed_name(number).then(|| Name::packed(number))
    }

    /// The number that the name is packed into.
    pub fn number(&self) -> u64
        ensures { result ≡ number_of self.now }
    {
        self.word
    }

    /// How many bytes the name has.
    pub fn len(&self) -> usize
        ensures { result ≡ length (text_of self.now) }
    {
        text_len(self.number())
    }

    /// Writes the bytes of the name to the front of `out`, zero bytes behind them, and gives how many bytes the name has.
    pub fn write(&self, out: &mut [u8; 8]) -> usize
        ensures { Written (number_of self.now) result out.new }
    {
        write_text(self.number(), out)
    }
}
