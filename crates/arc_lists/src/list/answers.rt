ghost use Rattle.std.specs.Prelude.{◌≡◌};
ghost use Rattle.arc_lists.specs.Lists.{list_meaning};
ghost use Rattle.arc_lists.specs.Meanings.{arc_list_limits, arc_list_meaning};

use super::weighing::{is_inhibited, listed_weight, passed};
use super::*;
use crate::reading;
use nets::{Net, Role};

impl<'a> ArcList<'a> {
    /// The net of a list that passes; of any other, the net with no places and no transitions.
    pub fn new(places: u8, labels: &'a [u64], arcs: &'a [Arc]) -> ArcList<'a>
        ensures { arc_list_meaning result ≡ list_meaning places labels.now arcs.now }
    {
        if reading::passes(places, labels, arcs) {
            passed(places, labels, arcs)
        } else {
            ArcList {
                places: 0,
                labels: &[],
                arcs: &[],
            }
        }
    }
}

impl<'a> Net for ArcList<'a> {
    ghost meaning = { arc_list_meaning };

    ghost limits = { arc_list_limits };

    fn places(&self) -> u8 {
        self.places
    }

    fn transitions(&self) -> u8 {
        self.labels.len() as u8
    }

    fn label(&self, t: u8) -> u64 {
        reading::label_at(self.labels, t)
    }

    fn input(&self, t: u8, p: u8) -> u8 {
        listed_weight(self, Role::Input, t, p)
    }

    fn output(&self, t: u8, p: u8) -> u8 {
        listed_weight(self, Role::Output, t, p)
    }

    fn inhibits(&self, t: u8, p: u8) -> bool {
        is_inhibited(self, t, p)
    }
}
