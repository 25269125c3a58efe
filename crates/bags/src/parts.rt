//! What is found among the elements that a sequence holds.
ghost use Rattle.std.specs.Prelude.{◌≡◌, count_by, position};

/// How many elements equal `x`.
pub(crate) fn occurrences<T: Copy + PartialEq>(held: &[T], x: T) -> usize
    ensures { result ≡ count_by (λ y. T.PartialEq.eq y x) held.now }
{
    held.iter().filter(|y| **y == x).count()
}

/// The number of the earliest element that equals `x`, or none.
pub(crate) fn earliest<T: Copy + PartialEq>(held: &[T], x: T) -> Option<usize>
    ensures { result ≡ position (λ y. T.PartialEq.eq y x) held.now }
{
    held.iter().position(|y| *y == x)
}
