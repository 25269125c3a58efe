/// A set of places.
#[derive(Clone, Copy, Debug, PartialEq, Eq)]
pub struct PlaceSet {
    flags: [bool; 16],
}

mod methods;
