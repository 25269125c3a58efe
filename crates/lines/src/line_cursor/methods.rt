ghost use Rattle.std.specs.Prelude.{◌≡◌, length};
ghost use Rattle.lines.specs.Cursors.{line_room, lines_left};
ghost use Rattle.lines.specs.Lines.{lines};

use super::*;
use crate::cuts::cut_line;

impl<'a> LineCursor<'a> {
    /// A cursor before the first line of a text.
    pub fn of(text: &'a [u8]) -> LineCursor<'a>
        ensures lines { lines_left result ≡ lines text.now }
        ensures room { line_room result ≡ length text.now }
    {
        LineCursor { rest: text }
    }
}

impl<'a> Iterator for LineCursor<'a> {
    ghost use Rattle.std.specs.Iterator.{at_most};
    ghost use Rattle.lines.specs.Cursors.{GivesLine, line_room};

    type Item = &'a [u8];

    ghost next_gives = { GivesLine };

    ghost remaining = { λ c. at_most (line_room c) };

    /// The next line, without the LF that ends it; none behind the last.
    fn next(&mut self) -> Option<&'a [u8]> {
        let (line, rest) = cut_line(self.rest)?;
        self.rest = rest;
        Some(line)
    }
}
