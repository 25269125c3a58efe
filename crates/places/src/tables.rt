//! The steps of bags, sets and relations on plain tables.
ghost use Rattle.std.specs.Prelude.{◌≡◌, ℕ, ◌+◌, ◌-◌, ◌<◌, ◌≤◌, true, false, length, if◌then◌else◌, nat_lt, slice_index_or};
ghost use Rattle.places.specs.Bags.{empty, single, ◌⊕◌, ◌⊖◌};
ghost use Rattle.places.specs.Sets.{nowhere, size, unrelated, with_pair, with_place};
ghost use Rattle.places.specs.Tables.{counted, flagged, rowed, Square};

/// A count of 0 for each place.
pub(crate) fn no_counts() -> [u8; 16]
    ensures long { length result ≡ 16 }
    ensures none { size (counted result) ≡ 0 }
    ensures value { counted result ≡ empty }
{
    [0; 16]
}

/// The element of a table at a place, and above 15 the value that is said.
fn at_or<T: Copy>(table: &[T], place: u8, beyond: T) -> T
    ensures { result ≡ slice_index_or table.now place beyond }
{
    table.get(place as usize).copied().unwrap_or(beyond)
}

/// The count of a place, 0 above 15.
pub(crate) fn entry(counts: &[u8; 16], p: u8) -> u8
    ensures { result ≡ counted counts.now p }
{
    at_or(counts, p, 0)
}

/// The tokens on all places.
pub(crate) fn total(counts: &[u8; 16]) -> usize
    ensures { result ≡ size (counted counts.now) }
{
    counts.iter().map(|c| *c as usize).sum()
}

/// One token more on a place.
pub(crate) fn plus_one(counts: &mut [u8; 16], p: u8)
    requires { (p < 16) × (size (counted counts.old) < 64) }
    ensures long { length counts.new ≡ 16 }
    ensures total { size (counted counts.new) ≡ size (counted counts.old) + 1 }
    ensures after { counted counts.new ≡ single p ⊕ counted counts.old }
{
    counts[p as usize] += 1;
}

/// One token less on a place, if there is one; says whether there was.
pub(crate) fn less_one(counts: &mut [u8; 16], p: u8) -> bool
    ensures long { length counts.new ≡ 16 }
    ensures found { result ≡ nat_lt 0 (counted counts.old p) }
    ensures total { size (counted counts.new) + (if result then 1 else 0) ≡ size (counted counts.old) }
    ensures after { counted counts.new ≡ counted counts.old ⊖ single p }
{
    if entry(counts, p) == 0 {
        return false;
    }
    counts[p as usize] -= 1;
    true
}

/// No place.
pub(crate) fn no_flags() -> [bool; 16]
    ensures { flagged result ≡ nowhere }
{
    [false; 16]
}

/// Whether a place is marked; none above 15 is.
pub(crate) fn flag(flags: &[bool; 16], p: u8) -> bool
    ensures { result ≡ flagged flags.now p }
{
    at_or(flags, p, false)
}

/// Marks a place, if there is such a place.
pub(crate) fn mark(flags: &mut [bool; 16], p: u8)
    ensures { flagged flags.new ≡ with_place (flagged flags.old) p }
{
    if p < 16 {
        flags[p as usize] = true;
    }
}

/// No pair.
pub(crate) fn no_rows() -> [[bool; 16]; 16]
    ensures square { Square result }
    ensures value { rowed result ≡ unrelated }
{
    [[false; 16]; 16]
}

/// Whether a pair is marked; none with a place above 15 is.
pub(crate) fn pair_flag(rows: &[[bool; 16]; 16], p: u8, q: u8) -> bool
    ensures { result ≡ rowed rows.now p q }
{
    rows.get(p as usize)
        .and_then(|row| row.get(q as usize))
        .copied()
        .unwrap_or(false)
}

/// Marks a pair or takes its mark away, if there are such places.
pub(crate) fn mark_pair(rows: &mut [[bool; 16]; 16], p: u8, q: u8, v: bool)
    requires { Square rows.old }
    ensures square { Square rows.new }
    ensures after { rowed rows.new ≡ with_pair (rowed rows.old) p q v }
{
    if p < 16 && q < 16 {
        rows[p as usize][q as usize] = v;
    }
}
