ghost use Rattle.std.specs.Prelude.{Some};
ghost use Rattle.names.specs.Meanings.{text_of};

use super::*;
use std::{fmt, str};

/// The bytes of the name as text.
impl fmt::Display for Name {
    ghost output = { λ n. Some (text_of n) };

    fn fmt<W: fmt::Write>(&self, f: &mut fmt::Formatter<W>) -> fmt::Result {
        let mut bytes = [0; 8];
        let len = self.write(&mut bytes);
        let text = str::from_utf8(&bytes[..len]).map_err(|_| fmt::Error)?;
        f.write_str(text)
    }
}
