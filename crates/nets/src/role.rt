/// What a place is to a transition that moves tokens: an input place gives its weight of tokens to the transition, and an
/// output place takes its weight of tokens from it.
#[derive(Clone, Copy, Debug, PartialEq, Eq, Hash)]
pub enum Role {
    Input,
    Output,
}

/// The least sum of the weights of a transition in a role.
pub const LEAST_SUM: u8 = 1;

/// The greatest sum of the weights of a transition in a role.
pub const MOST_SUM: u8 = 4;
