//! The numbers that stand for the kinds of arcs, as the library's users write them: a constant can call no function.

/// An arc from its place to its transition.
pub const INPUT: u8 = 0;

/// An arc from its transition to its place.
pub const OUTPUT: u8 = 1;

/// An arc by which its place inhibits its transition.
pub const INHIBITOR: u8 = 2;
