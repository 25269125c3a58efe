ghost use Rattle.std.specs.Prelude.{◌≡◌, ◌<◌, [], length, slice_set};
ghost use Rattle.bags.specs.Changes.{Pushed, Replaced};
ghost use Rattle.bags.specs.Equality.{Counts, Removes};
ghost use Rattle.bags.specs.Items.{items};
ghost use Rattle.std.specs.List.{remove, slice_get};

use super::*;
use crate::parts;

impl<T: Copy + Default, const N: usize> Sequence<T, N> {
    /// Made empty.
    pub fn new() -> Self
        ensures { items result ≡ [] }
    {
        Sequence::over([T::default(); N])
    }
}

// Written out: no `Default` can be derived for a struct with a ghost field.
impl<T: Copy + Default, const N: usize> Default for Sequence<T, N> {
    ghost is_default = { λ s. items s ≡ [] };

    fn default() -> Self {
        Sequence::new()
    }
}

impl<T: Copy, const N: usize> Sequence<T, N> {
    /// Made empty over a room of N elements, whatever they are.
    pub fn over(room: [T; N]) -> Self
        ensures { items result ≡ [] }
    {
        Sequence {
            cells: room,
            len: 0,
        }
    }

    /// How many elements it holds.
    pub fn len(&self) -> usize
        ensures { result ≡ length (items self.now) }
    {
        self.as_slice().len()
    }

    /// Its elements, in order.
    pub fn as_slice(&self) -> &[T]
        ensures { result.now ≡ items self.now }
    {
        let cells = &self.cells[..];
        &cells[..self.len]
    }

    /// The element at the number `i`, counted from 0, or none.
    pub fn get(&self, i: usize) -> Option<T>
        ensures { result ≡ slice_get (items self.now) i }
    {
        self.as_slice().get(i).copied()
    }

    /// Adds `x` at the end; where N elements are held already, nothing changes and `x` comes back.
    pub fn push(&mut self, x: T) -> Result<(), T>
        ensures { Pushed N (items self.old) x result (items self.new) }
    {
        if self.len == N {
            return Err(x);
        }
        self.cells[self.len] = x;
        self.len += 1;
        Ok(())
    }

    /// Puts `x` in the place of the element at the number `i`; where there is none, nothing changes and `x` comes back.
    pub fn replace(&mut self, i: usize, x: T) -> Result<(), T>
        ensures { Replaced (items self.old) i x result (items self.new) }
    {
        if i >= self.len() {
            return Err(x);
        }
        self.write(i, x);
        Ok(())
    }

    /// Writes `x` over the element at the number `i`.
    fn write(&mut self, i: usize, x: T)
        requires { i < length (items self.old) }
        ensures { items self.new ≡ slice_set (items self.old) i x }
    {
        self.cells[i] = x;
    }

    /// Moves the elements behind the number `i` up by one, so that one less is held.
    fn close_gap(&mut self, i: usize)
        requires { i < length (items self.old) }
        ensures { items self.new ≡ remove (items self.old) i }
    {
        let cells = &mut self.cells[..];
        cells.copy_within(i + 1..self.len, i);
        self.len -= 1;
    }
}

impl<T: Copy + PartialEq, const N: usize> Sequence<T, N> {
    /// How many elements equal `x`.
    pub fn count(&self, x: T) -> usize
        ensures { Counts (λ y b. b ≡ T.PartialEq.eq y x) (items self.now) result }
    {
        self.occurrences(x)
    }

    /// Takes out the earliest element that equals `x`, if there is one, and says whether there was; the rest keeps its order.
    pub fn remove(&mut self, x: T) -> bool
        ensures { Removes (λ y b. b ≡ T.PartialEq.eq y x) (items self.old) result (items self.new) }
    {
        self.take_earliest(x)
    }

    /// How many elements equal `x`.
    fn occurrences(&self, x: T) -> usize
        ensures { Counts (λ y b. b ≡ T.PartialEq.eq y x) (items self.now) result }
    {
        parts::occurrences(self.as_slice(), x)
    }

    /// Takes out the earliest element that equals `x`, if there is one.
    fn take_earliest(&mut self, x: T) -> bool
        ensures { Removes (λ y b. b ≡ T.PartialEq.eq y x) (items self.old) result (items self.new) }
    {
        let Some(i) = parts::earliest(self.as_slice(), x) else {
            return false;
        };
        self.close_gap(i);
        true
    }
}
