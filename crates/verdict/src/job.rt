//! A transition whose bags are gone through.
ghost use Rattle.std.specs.Prelude.{◌≡◌, ℕ, ◌<◌, false, length, slice_index_or};
ghost use Rattle.bisimulation.specs.Verdicts.{self_blocked};
ghost use Rattle.nets.specs.Tables.{table_meaning};
ghost use Rattle.nets.specs.declared.role.Role.TheVariants.{Input, Output};
ghost use Rattle.verdict.specs.ShortLists.{listed};
ghost use Rattle.verdict.specs.Relating.{flow_list};
ghost use Rattle.verdict.specs.declared.outline.Flows.{Flows};

use crate::half::Half;
use crate::outline::Flows;

/// A transition of a side that is there and not self-blocked, and what it takes and gives; with the lists of the other
/// net's transitions.
#[derive(Clone, Copy)]
pub struct Job<'a, 'b> {
    pub half: &'b Half<'a>,
    pub outline: &'b [Flows; 32],
    pub t: u8,
    pub flows: Flows,
    ghost long: { length outline.now ≡ 32 },
    ghost outline_takes: { (u : ℕ) → u < 32 → (d : Flows) → listed (slice_index_or outline.now u d).takes ≡ flow_list (table_meaning half.now.other.now) Input u },
    ghost outline_gives: { (u : ℕ) → u < 32 → (d : Flows) → listed (slice_index_or outline.now u d).gives ≡ flow_list (table_meaning half.now.other.now) Output u },
    ghost there: { t < (table_meaning half.now.mover.now).transitions },
    ghost free: { self_blocked (table_meaning half.now.mover.now) t ≡ false },
    ghost taken: { listed flows.takes ≡ flow_list (table_meaning half.now.mover.now) Input t },
    ghost given: { listed flows.gives ≡ flow_list (table_meaning half.now.mover.now) Output t },
}

mod making;
