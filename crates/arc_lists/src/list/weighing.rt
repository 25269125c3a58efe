ghost use Rattle.std.specs.Prelude.{◌≡◌, true};
ghost use Rattle.arc_lists.specs.Arcs.{some_arc, weights};
ghost use Rattle.arc_lists.specs.Links.{role_number};
ghost use Rattle.arc_lists.specs.Lists.{list_passes};

use super::*;
use crate::kind::Kind;
use crate::link::Link;
use crate::reading;
use nets::Role;

/// The net of a list that passes.
pub(crate) fn passed<'a>(places: u8, labels: &'a [u64], arcs: &'a [Arc]) -> ArcList<'a>
    requires { list_passes places labels.now arcs.now ≡ true }
    ensures places { result.places ≡ places }
    ensures labels { result.labels.now ≡ labels.now }
    ensures arcs { result.arcs.now ≡ arcs.now }
{
    ArcList {
        places,
        labels,
        arcs,
    }
}

/// The weight of a place in a role.
pub(crate) fn listed_weight(list: &ArcList, role: Role, transition: u8, place: u8) -> u8
    ensures { result ≡ weights (role_number role) transition place list.now.arcs.now }
{
    reading::weight_of(
        list.arcs,
        Link {
            kind: role.into(),
            transition,
            place,
        },
    )
}

/// Whether a place inhibits a transition.
pub(crate) fn is_inhibited(list: &ArcList, transition: u8, place: u8) -> bool
    ensures { result ≡ some_arc 2 transition place list.now.arcs.now }
{
    reading::any_of(
        list.arcs,
        Link {
            kind: Kind::Inhibitor,
            transition,
            place,
        },
    )
}
