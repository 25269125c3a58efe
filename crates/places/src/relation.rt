ghost use Rattle.places.specs.Tables.{Square};

/// A relation between left places and right places: a set of pairs.
#[derive(Clone, Copy, Debug, PartialEq, Eq)]
pub struct Relation {
    rows: [[bool; 16]; 16],
    ghost square: { Square rows },
}

mod methods;
