ghost use Rattle.std.specs.Prelude.{◌≡◌, ◌<◌, true, false, length, is_some, Some};
ghost use Rattle.names.specs.Meanings.{number_of};
ghost use Rattle.charts.specs.Naming.{has_name};
ghost use Rattle.charts.specs.PlaceTables.{places_of};
ghost use Rattle.charts.specs.Tables.{Inside};
ghost use Rattle.charts.specs.TransitionTables.{transitions_of};
ghost use Rattle.charts.specs.Views.{transition_names_in};
ghost use Rattle.charts.specs.declared.opened.Opened.{Opened};

use crate::opened::Opened;
use crate::place_table::PlaceTable;
use crate::transition_table::TransitionTable;

/// A net as a full table, with names and declared markings. At most one transition is open, and it is no part of the
/// net.
#[derive(Drop)]
pub struct Chart {
    places: PlaceTable,
    transitions: TransitionTable,
    opened: Option<Opened>,
    ghost inside: { Inside (length (places_of places)) (transitions_of transitions) },
    ghost room: { is_some opened ≡ true → length (transitions_of transitions) < 32 },
    ghost unused: { (o : Opened) → opened ≡ Some o → has_name (number_of o.name) (transition_names_in (transitions_of transitions)) ≡ false },
}

mod asking;
mod building;
mod net;
mod steps;
