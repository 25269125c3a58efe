ghost use Rattle.std.specs.Prelude.{◌≡◌, true};
ghost use Rattle.names.specs.Numbers.{is_packed};

/// A name: a letter, then letters, digits or underscores, at most 8 bytes in all.
/// Its bytes stand in one number, the first in the highest byte, with zero bytes behind the last.
#[derive(Clone, Copy, Debug, PartialEq, Eq, Hash, PartialOrd, Ord)]
pub struct Name {
    word: u64,
    ghost named: { is_packed word ≡ true },
}

mod display;
mod methods;
