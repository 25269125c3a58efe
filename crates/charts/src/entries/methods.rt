ghost use Rattle.std.specs.Prelude.{◌≡◌, ◌<◌, ◌≤◌, true, false, [], ◌∷◌, ◌++◌, length, map};
ghost use Rattle.names.specs.Meanings.{number_of};
ghost use Rattle.names.specs.Numbers.{is_packed};
ghost use Rattle.std.specs.List.{slice_get};
ghost use Rattle.std.specs.Slice.{IsItemAt};
ghost use Rattle.std.specs.Option.{option_map};
ghost use Rattle.charts.specs.Naming.{has_name, position};

use super::*;
use crate::named::find;
use names::Name;

impl<T: Named + Default + Drop, const N: usize> Entries<T, N> {
    /// No entries.
    pub(crate) fn new() -> Self
        requires { N < 256 }
        ensures { result.entries.items ≡ [] }
    {
        Entries {
            entries: ArrayVec::new(),
        }
    }

    /// How many entries there are.
    pub(crate) fn len(&self) -> u8
        ensures value { result ≡ length self.now.entries.items }
        ensures few { result ≤ N }
    {
        self.entries.len() as u8
    }

    /// The number of the entry of a name.
    pub(crate) fn find(&self, name: Name) -> Option<u8>
        ensures { result ≡ position (number_of name) (map T.named self.now.entries.items) }
    {
        find(&self.entries, name)
    }

    /// Whether an entry has the name.
    pub(crate) fn has(&self, name: Name) -> bool
        ensures { result ≡ has_name (number_of name) (map T.named self.now.entries.items) }
    {
        self.find(name).is_some()
    }

    /// An entry by its number.
    pub(crate) fn get(&self, i: u8) -> Option<&T>
        ensures { IsItemAt self.now.entries.items i result }
    {
        self.entries.get(i as usize)
    }

    /// The name of an entry.
    pub(crate) fn name(&self, i: u8) -> Option<Name>
        ensures { option_map number_of result ≡ slice_get (map T.named self.now.entries.items) i }
    {
        let entry = self.get(i)?;
        Name::from_number(entry.number())
    }

    /// Puts an entry behind the last.
    pub(crate) fn push(&mut self, entry: T)
        requires room { length self.old.entries.items < N }
        requires named { is_packed (T.named entry) ≡ true }
        requires new { has_name (T.named entry) (map T.named self.old.entries.items) ≡ false }
        ensures { self.new.entries.items ≡ self.old.entries.items ++ entry ∷ [] }
    {
        self.entries.push(entry);
    }
}
