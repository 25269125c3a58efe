//! Counting and removing at places and at pairs of places, where the equality is that of the values.
ghost use Rattle.bags.specs.Exact.{EqualCounts, EqualRemoves, ExactCounts, ExactRemoves};

/// What a sequence counts and removes by the equality of its element type is, at places and at pairs of places,
/// what equals the element sought: a theorem.
pub fn equality_is_exact()
    ensures counts { ExactCounts }
    ensures removes { ExactRemoves }
    ensures counts_equal { EqualCounts }
    ensures removes_equal { EqualRemoves }
{}
