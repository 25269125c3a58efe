//! Ordered sequences in a fixed room: the tokens of a player, the pairs that a tandem holds.

#![tactic(auto)]

mod exact;
mod parts;
mod sequence;

pub use exact::equality_is_exact;
pub use sequence::Sequence;
