ghost use Rattle.std.specs.Prelude.{◌≡◌, ◌≤◌};
ghost use Rattle.places.specs.Sets.{size};
ghost use Rattle.charts.specs.Tables.{listed_places};
ghost use Rattle.charts.specs.Views.{marking_in};

use crate::entries::Entries;
use crate::named::Named;

/// A place: the number of its name, and its declared marking.
#[derive(Clone, Copy, Debug, Default, PartialEq, Eq)]
pub(crate) struct Place {
    pub(crate) name: u64,
    pub(crate) marking: u8,
}

impl Named for Place {
    ghost named = { λ p. p.name };

    fn number(&self) -> u64 {
        self.name
    }
}

/// The places of a chart, no two with the same name, their declared markings at most 64 tokens together.
#[derive(Drop)]
pub(crate) struct PlaceTable {
    places: Entries<Place, 16>,
    tokens: u8,
    ghost total: { tokens ≡ size (marking_in (listed_places places.entries.items)) },
    ghost few: { tokens ≤ 64 },
}

mod methods;
