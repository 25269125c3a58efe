ghost use Rattle.std.specs.Prelude.{◌≡◌, length};
ghost use Rattle.lines.specs.Cursors.{column_of, word_room, words_left};
ghost use Rattle.lines.specs.Words.{words};
ghost use Rattle.std.specs.Str.{bytes_eq};

use super::*;
use crate::cuts::cut_word;

impl<'a> Word<'a> {
    /// Whether the word has these bytes.
    pub fn is(&self, text: &[u8]) -> bool
        ensures { result ≡ bytes_eq self.now.bytes.now text.now }
    {
        self.bytes == text
    }
}

impl<'a> WordCursor<'a> {
    /// A cursor before the first column of a line.
    pub fn of(line: &'a [u8]) -> WordCursor<'a>
        ensures words { words_left result ≡ words 1 line.now }
        ensures room { word_room result ≡ length line.now }
    {
        WordCursor {
            column: 1,
            rest: line,
        }
    }

    /// The column at which the cursor stands.
    pub fn column(&self) -> usize
        ensures { result ≡ column_of self.now }
    {
        self.column
    }
}

impl<'a> Iterator for WordCursor<'a> {
    ghost use Rattle.std.specs.Iterator.{at_most};
    ghost use Rattle.lines.specs.Cursors.{GivesWord, word_room};

    type Item = Word<'a>;

    ghost next_gives = { GivesWord };

    ghost remaining = { λ c. at_most (word_room c) };

    /// The next word. Behind the last there is none, and the cursor stands one past the line's last byte.
    fn next(&mut self) -> Option<Word<'a>> {
        let (word, behind) = cut_word(*self);
        *self = behind;
        word
    }
}
