ghost use Rattle.std.specs.Prelude.{◌≡◌, ◌<◌, ◌≤◌, true, length, map};
ghost use Rattle.charts.specs.Naming.{AllNames, distinct};

use crate::named::Named;
use arrayvec::ArrayVec;

/// At most `N` entries, each under a name, no two under the same; so few that a `u8` counts them.
#[derive(Drop)]
pub(crate) struct Entries<T: Named, const N: usize> {
    entries: ArrayVec<T, N>,
    ghost small: { N < 256 },
    ghost room: { length entries.items ≤ N },
    ghost named: { AllNames (map T.Named.named entries.items) },
    ghost apart: { distinct (map T.Named.named entries.items) ≡ true },
}

mod methods;
