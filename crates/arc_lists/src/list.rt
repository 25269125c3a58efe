ghost use Rattle.std.specs.Prelude.{◌≡◌, ℕ, ◌^◌, ◌<◌, true, slice_index};
ghost use Rattle.arc_lists.specs.Lists.{list_passes};

use crate::arc::Arc;

/// A net over the caller's slices: how many places it has, a label for each transition, and its arcs.
#[derive(Clone, Copy, Debug, PartialEq, Eq)]
pub struct ArcList<'a> {
    places: u8,
    labels: &'a [u64],
    arcs: &'a [Arc],
    ghost passed: { list_passes places labels.now arcs.now ≡ true },
    ghost short: { (t : ℕ) → slice_index labels.now t < 2 ^ 64 },
}

mod answers;
mod weighing;
