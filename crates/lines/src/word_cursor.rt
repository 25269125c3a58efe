ghost use Rattle.std.specs.Prelude.{◌+◌, ◌^◌, ◌<◌, length};

/// A word of a line: its column, counted from 1, and its bytes.
#[derive(Clone, Copy, Debug, PartialEq, Eq)]
pub struct Word<'a> {
    pub column: usize,
    pub bytes: &'a [u8],
}

/// A cursor over the words of a line: the column at which it stands, and the bytes from there on.
#[derive(Clone, Copy, Debug)]
pub struct WordCursor<'a> {
    pub(crate) column: usize,
    pub(crate) rest: &'a [u8],
    ghost fits: { column + length rest.now < 2 ^ 64 },
}

mod methods;
