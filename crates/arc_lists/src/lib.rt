//! Arc records of the caller, read in place as a net.

#![tactic(auto)]

ghost use Rattle.std.specs.Prelude.{◌≡◌};
ghost use Rattle.arc_lists.specs.Lists.{list_passes};
ghost use Rattle.arc_lists.specs.Refusals.{arc_list_number, checked};

mod arc;
mod kind;
mod link;
mod list;
mod reading;

pub use arc::Arc;
pub use list::ArcList;

/// Why a list of arcs is refused.
#[derive(Clone, Copy, Debug, PartialEq, Eq)]
pub enum ArcListRefusal {
    /// 22: the list does not keep the limits of nets.
    OverLimits,
}

impl ArcListRefusal {
    /// The number of the refusal.
    pub fn number(&self) -> u8
        ensures { result ≡ arc_list_number self.now }
    {
        match self {
            ArcListRefusal::OverLimits => 22,
        }
    }
}

// The three stand apart here: they are what the caller holds, and `ArcList` is what has passed.
/// Whether the arcs, over the places and with a label for each transition, are a net that keeps the limits.
pub fn check_arcs(places: u8, labels: &[u64], arcs: &[Arc]) -> Result<(), ArcListRefusal>
    ensures { result ≡ checked (list_passes places labels.now arcs.now) }
{
    reading::passes(places, labels, arcs)
        .then_some(())
        .ok_or(ArcListRefusal::OverLimits)
}
