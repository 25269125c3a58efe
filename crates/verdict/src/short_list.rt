//! A list of places, to work with.
use bags::Sequence;

/// A list of up to four places: what a transition takes or gives, in ascending order, or the first places of a bag.
pub type ShortList = Sequence<u8, 4>;
