ghost use Rattle.std.specs.Prelude.{◌≡◌, ◌+◌, ◌<◌, ◌≤◌, false, [], length};
ghost use Rattle.names.specs.Meanings.{number_of};
ghost use Rattle.places.specs.Sets.{size};
ghost use Rattle.std.specs.List.{slice_get};
ghost use Rattle.std.specs.Option.{option_map};
ghost use Rattle.charts.specs.Naming.{has_name, position};
ghost use Rattle.charts.specs.PlaceTables.{places_of};
ghost use Rattle.charts.specs.Views.{marking_in, place_declared_as, place_names_in, with_declared};

use super::*;
use crate::ChartRefusal;
use names::Name;

impl PlaceTable {
    /// No places.
    pub(crate) fn new() -> PlaceTable
        ensures { places_of result ≡ [] }
    {
        PlaceTable {
            places: Entries::new(),
            tokens: 0,
        }
    }

    /// How many places there are.
    pub(crate) fn len(&self) -> u8
        ensures value { result ≡ length (places_of self.now) }
        ensures few { result ≤ 16 }
    {
        self.places.len()
    }

    /// The number of the place of a name.
    #[tactic(auto, using(crate::specs::TableLaws::places_named))]
    pub(crate) fn find(&self, name: Name) -> Option<u8>
        ensures { result ≡ position (number_of name) (place_names_in (places_of self.now)) }
    {
        self.places.find(name)
    }

    /// Whether a place has the name.
    #[tactic(auto, using(crate::specs::TableLaws::places_named))]
    fn has(&self, name: Name) -> bool
        ensures { result ≡ has_name (number_of name) (place_names_in (places_of self.now)) }
    {
        self.places.has(name)
    }

    /// The name of a place.
    #[tactic(auto, using(crate::specs::TableLaws::places_named))]
    pub(crate) fn name(&self, p: u8) -> Option<Name>
        ensures { option_map number_of result ≡ slice_get (place_names_in (places_of self.now)) p }
    {
        self.places.name(p)
    }

    /// The declared marking of a place, 0 behind the last.
    pub(crate) fn marking(&self, p: u8) -> u8
        ensures { result ≡ marking_in (places_of self.now) p }
    {
        self.places.get(p).map_or(0, |place| place.marking)
    }

    /// What the declared markings are together.
    fn total(&self) -> u8
        ensures value { result ≡ size (marking_in (places_of self.now)) }
        ensures few { result ≤ 64 }
    {
        self.tokens
    }

    /// The number that a place would have, or why it is not declared.
    pub(crate) fn check(&self, name: Name, marking: u8) -> Result<u8, ChartRefusal>
        ensures { result ≡ place_declared_as (places_of self.now) (number_of name) marking }
    {
        if marking > 64 {
            return Err(ChartRefusal::Marking);
        }
        if self.has(name) {
            return Err(ChartRefusal::DeclaredAgain);
        }
        let place = self.len();
        if place > 15 {
            return Err(ChartRefusal::TooManyPlaces);
        }
        if self.total() + marking > 64 {
            return Err(ChartRefusal::TooManyTokens);
        }
        Ok(place)
    }

    /// Puts a place behind the last.
    pub(crate) fn push(&mut self, name: Name, marking: u8)
        requires room { length (places_of self.old) < 16 }
        requires new { has_name (number_of name) (place_names_in (places_of self.old)) ≡ false }
        requires few { size (marking_in (places_of self.old)) + marking ≤ 64 }
        ensures { places_of self.new ≡ with_declared (places_of self.old) (number_of name) marking }
    {
        let place = Place {
            name: name.number(),
            marking,
        };
        self.places.push(place);
        self.tokens += marking;
    }
}
