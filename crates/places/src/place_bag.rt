ghost use Rattle.std.specs.Prelude.{◌≡◌, ◌≤◌, length};
ghost use Rattle.places.specs.Sets.{size};
ghost use Rattle.places.specs.Tables.{counted};

/// A bag of places: a count for each of the places 0 to 15, at most 64 tokens in all.
#[derive(Clone, Copy, Debug, PartialEq, Eq)]
pub struct PlaceBag {
    counts: [u8; 16],
    ghost whole: { length counts ≡ 16 },
    ghost few: { size (counted counts) ≤ 64 },
}

mod methods;
