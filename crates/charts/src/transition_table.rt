ghost use Rattle.charts.specs.Naming.{AllNames};
ghost use Rattle.charts.specs.Tables.{listed_transitions, Gives, ShortLabels, Takes};
ghost use Rattle.charts.specs.Views.{label_names_in};

use crate::entries::Entries;
use crate::named::Named;
use crate::row::ChartRow;

/// A closed transition: the number of its name, its label, and its row.
#[derive(Clone, Copy, Default)]
pub(crate) struct Transition {
    pub(crate) name: u64,
    pub(crate) label: u64,
    pub(crate) row: ChartRow,
}

impl Named for Transition {
    ghost named = { λ t. t.name };

    fn number(&self) -> u64 {
        self.name
    }
}

/// The closed transitions of a chart, no two with the same name.
#[derive(Drop)]
pub(crate) struct TransitionTable {
    transitions: Entries<Transition, 32>,
    ghost labelled: { AllNames (label_names_in (listed_transitions transitions.entries.items)) },
    ghost short: { ShortLabels (listed_transitions transitions.entries.items) },
    ghost takes: { Takes (listed_transitions transitions.entries.items) },
    ghost gives: { Gives (listed_transitions transitions.entries.items) },
}

mod methods;
