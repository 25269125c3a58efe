//! Nets, known by their meaning.

#![tactic(auto)]

ghost use Rattle.std.specs.Prelude.{◌≡◌};
ghost use Rattle.nets.specs.Firing.{FiringCounts};
ghost use Rattle.nets.specs.Meaning.{Limits, Meaning};
ghost use Rattle.nets.specs.Roles.{weights_in};

mod copy;
mod role;
mod row;
mod table;

pub use role::{LEAST_SUM, MOST_SUM, Role};
pub use row::Row;
pub use table::Table;

/// A net is anything that answers these questions. Its answers are its meaning, and they keep the limits. Any number
/// may be asked: beyond the places or the transitions the answer is 0 or no. A question alters nothing.
pub trait Net {
    ghost meaning: { Self → Meaning };

    ghost limits: { (n : Self) → Limits (meaning n) };

    /// How many places it has.
    fn places(&self) -> u8
        ensures { result ≡ (meaning self.now).places };

    /// How many transitions it has.
    fn transitions(&self) -> u8
        ensures { result ≡ (meaning self.now).transitions };

    /// The label of the transition `t`.
    fn label(&self, t: u8) -> u64
        ensures { result ≡ (meaning self.now).label t };

    /// The input weight of the transition `t` at the place `p`.
    fn input(&self, t: u8, p: u8) -> u8
        ensures { result ≡ (meaning self.now).input t p };

    /// The output weight of the transition `t` at the place `p`.
    fn output(&self, t: u8, p: u8) -> u8
        ensures { result ≡ (meaning self.now).output t p };

    /// The weight of the transition `t` at the place `p` in a role.
    fn weight(&self, role: Role, t: u8, p: u8) -> u8
        ensures { result ≡ weights_in (meaning self.now) role t p }
    {
        match role {
            Role::Input => self.input(t, p),
            Role::Output => self.output(t, p),
        }
    }

    /// Whether the place `p` inhibits the transition `t`.
    fn inhibits(&self, t: u8, p: u8) -> bool
        ensures { result ≡ (meaning self.now).inhibits t p };
}

/// Firing an enabled transition changes the number of tokens by the difference of its two sums: a theorem.
pub fn firing_counts()
    ensures { FiringCounts }
{}
