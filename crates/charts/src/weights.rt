ghost use Rattle.std.specs.Prelude.{◌≡◌, ◌≤◌, length};
ghost use Rattle.places.specs.Sets.{size};
ghost use Rattle.places.specs.Tables.{counted};

/// The weights of one role of a transition, one for each place; they add up to at most 4.
#[derive(Clone, Copy, Debug, PartialEq, Eq)]
pub(crate) struct Weights {
    counts: [u8; 16],
    ghost whole: { length counts ≡ 16 },
    ghost few: { size (counted counts) ≤ 4 },
}

mod methods;
