//! Names of 1 to 8 bytes, each packed into one number.

#![tactic(auto)]

ghost use Rattle.names.specs.Names.{PackedOnce};

mod letters;
mod name;
mod numbers;

pub use name::Name;

/// No two names are packed into the same number.
pub fn packing_is_one_to_one()
    ensures { PackedOnce }
{}
