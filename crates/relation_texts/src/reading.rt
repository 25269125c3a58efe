//! What the lines so far have said.
use crate::forms::Count;
use places::Relation;

mod taking;

/// The number of pairs that the header announced, and the number of its line.
#[derive(Clone, Copy, Debug, PartialEq, Eq)]
pub(crate) struct Announced {
    pub(crate) pairs: Count,
    pub(crate) line: usize,
}

/// What the lines so far have said between a left net and a right net of so many places: the header, where it has come;
/// how many edges; their pairs. With them, how many lines there were.
#[derive(Clone, Copy)]
pub(crate) struct Reading {
    left: u8,
    right: u8,
    announced: Option<Announced>,
    edges: usize,
    lines: usize,
    pairs: Relation,
}
