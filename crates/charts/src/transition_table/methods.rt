ghost use Rattle.std.specs.Prelude.{◌≡◌, ◌<◌, ◌≤◌, false, [], ◌∷◌, ◌++◌, length, MatchOption};
ghost use Rattle.names.specs.Meanings.{number_of};
ghost use Rattle.places.specs.Sets.{size};
ghost use Rattle.nets.specs.Meaning.{least_output};
ghost use Rattle.std.specs.List.{slice_get};
ghost use Rattle.std.specs.Option.{option_map};
ghost use Rattle.charts.specs.Naming.{has_name, position};
ghost use Rattle.charts.specs.Openings.{opened_entry};
ghost use Rattle.charts.specs.Rows.{row_view};
ghost use Rattle.charts.specs.Tables.{entry_at};
ghost use Rattle.charts.specs.TransitionTables.{transitions_of};
ghost use Rattle.charts.specs.Views.{label_names_in, no_transition, transition_names_in};

use super::*;
use crate::opened::Opened;
use names::Name;

impl TransitionTable {
    /// No transitions.
    pub(crate) fn new() -> TransitionTable
        ensures { transitions_of result ≡ [] }
    {
        TransitionTable {
            transitions: Entries::new(),
        }
    }

    /// How many transitions there are.
    pub(crate) fn len(&self) -> u8
        ensures value { result ≡ length (transitions_of self.now) }
        ensures few { result ≤ 32 }
    {
        self.transitions.len()
    }

    /// The number of the transition of a name.
    #[tactic(auto, using(crate::specs::TableLaws::entries_named))]
    pub(crate) fn find(&self, name: Name) -> Option<u8>
        ensures { result ≡ position (number_of name) (transition_names_in (transitions_of self.now)) }
    {
        self.transitions.find(name)
    }

    /// Whether a transition has the name.
    #[tactic(auto, using(crate::specs::TableLaws::entries_named))]
    pub(crate) fn has(&self, name: Name) -> bool
        ensures { result ≡ has_name (number_of name) (transition_names_in (transitions_of self.now)) }
    {
        self.transitions.has(name)
    }

    /// The name of a transition.
    #[tactic(auto, using(crate::specs::TableLaws::entries_named))]
    pub(crate) fn name(&self, t: u8) -> Option<Name>
        ensures { option_map number_of result ≡ slice_get (transition_names_in (transitions_of self.now)) t }
    {
        self.transitions.name(t)
    }

    /// The name that is packed into the label of a transition.
    pub(crate) fn label_name(&self, t: u8) -> Option<Name>
        ensures { option_map number_of result ≡ slice_get (label_names_in (transitions_of self.now)) t }
    {
        let transition = self.transitions.get(t)?;
        Name::from_number(transition.label)
    }

    /// The label of a transition, 0 behind the last.
    pub(crate) fn label(&self, t: u8) -> u64
        ensures { result ≡ (entry_at (transitions_of self.now) t).label }
    {
        self.transitions
            .get(t)
            .map_or(0, |transition| transition.label)
    }

    /// The row of a transition.
    pub(crate) fn row(&self, t: u8) -> Option<&ChartRow>
        ensures { MatchOption result (entry_at (transitions_of self.now) t ≡ no_transition) (λ x. row_view x.now ≡ (entry_at (transitions_of self.now) t).row) }
    {
        self.transitions.get(t).map(|transition| &transition.row)
    }

    /// Puts the transition that was open behind the last.
    pub(crate) fn push(&mut self, opened: Opened)
        requires room { length (transitions_of self.old) < 32 }
        requires new { has_name (number_of opened.name) (transition_names_in (transitions_of self.old)) ≡ false }
        requires takes { 1 ≤ size (row_view opened.row).inputs }
        requires gives { least_output ≤ size (row_view opened.row).outputs }
        ensures { transitions_of self.new ≡ transitions_of self.old ++ opened_entry opened ∷ [] }
    {
        let transition = Transition {
            name: opened.name.number(),
            label: opened.label.number(),
            row: opened.row,
        };
        self.transitions.push(transition);
    }
}
