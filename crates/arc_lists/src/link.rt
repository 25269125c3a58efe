use crate::kind::Kind;

/// A link: that a place is an input, an output or an inhibitor of a transition. In a list that passes, at most one arc
/// weighs it.
#[derive(Clone, Copy, Debug, PartialEq, Eq)]
pub(crate) struct Link {
    pub(crate) kind: Kind,
    pub(crate) transition: u8,
    pub(crate) place: u8,
}
