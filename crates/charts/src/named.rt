//! Entries of tables that stand under a name.
ghost use Rattle.std.specs.Prelude.{◌≡◌, ℕ, ◌<◌, ◌≤◌, ◌==◌, map, length, IfSome};
ghost use Rattle.std.specs.List.{position_from};
ghost use Rattle.names.specs.Meanings.{number_of};
ghost use Rattle.charts.specs.Naming.{position};

use names::Name;

/// An entry of a table, under a name. It holds the name by its number, since an unused place of a table holds an entry
/// too, and there is no name for that.
pub(crate) trait Named {
    ghost named: { Self → ℕ };

    /// The number of the name.
    fn number(&self) -> u64
        ensures { result ≡ named self.now };
}

/// Where the first entry stands whose name has a number.
fn first<T: Named>(entries: &[T], number: u64) -> Option<usize>
    ensures value { result ≡ position_from (λ e. T.named e == number) 0 entries.now }
    ensures inside { IfSome result (λ i. i < length entries.now) }
{
    entries.iter().position(|entry| entry.number() == number)
}

/// Where the first entry of a name stands.
pub(crate) fn find<T: Named>(entries: &[T], name: Name) -> Option<u8>
    requires { length entries.now ≤ 256 }
    ensures { result ≡ position (number_of name) (map T.named entries.now) }
{
    first(entries, name.number()).map(|i| i as u8)
}
