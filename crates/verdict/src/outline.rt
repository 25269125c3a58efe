//! What the transitions of a net take and give, as lists.
ghost use Rattle.std.specs.Prelude.{◌≡◌, ℕ, ◌+◌, ◌≤◌, List, ◌++◌, length};
ghost use Rattle.bisimulation.specs.Lists.{pile};
ghost use Rattle.nets.specs.Tables.{table_meaning};
ghost use Rattle.verdict.specs.ShortLists.{listed};
ghost use Rattle.verdict.specs.Relating.{flow_list, FlowsOf, Outlined};

use crate::short_list::ShortList;
use nets::{Net, Role, Table};
use std::array;

/// What a transition takes, and what it gives.
#[derive(Clone, Copy)]
pub struct Flows {
    pub takes: ShortList,
    pub gives: ShortList,
}

/// A place more, `times` times.
pub(crate) fn pile_on(list: &mut ShortList, place: u8, times: u8)
    requires { length (listed list.old) + times ≤ 4 }
    ensures { (zs : List ℕ) → listed list.new ++ zs ≡ listed list.old ++ pile times place zs }
{
    for _ in 0..times {
        let _ = list.push(place);
    }
}

/// What a transition takes or gives, as an ascending list.
fn flow_list(net: &Table, role: Role, t: u8) -> ShortList
    ensures { listed result ≡ flow_list (table_meaning net.now) role t }
{
    let mut list = ShortList::new();
    for p in 0..net.places() {
        pile_on(&mut list, p, net.weight(role, t, p));
    }
    list
}

/// What a transition takes, and what it gives.
pub(crate) fn flows_of(net: &Table, t: u8) -> Flows
    ensures { FlowsOf (table_meaning net.now) t result }
{
    Flows {
        takes: flow_list(net, Role::Input, t),
        gives: flow_list(net, Role::Output, t),
    }
}

/// The lists of all transitions.
pub(crate) fn outline_of(net: &Table) -> [Flows; 32]
    ensures { Outlined (table_meaning net.now) result }
{
    array::from_fn(|t| flows_of(net, t as u8))
}
