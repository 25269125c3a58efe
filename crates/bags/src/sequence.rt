ghost use Rattle.std.specs.Prelude.{◌≡◌, ◌≤◌, ⊤, length};

use std::alloc::AllocError;

/// At most N elements in the order in which they were added, of which `len` are held, at the front of the cells. Its
/// order counts, so it is no bag: a bag in the sense of the definitions is what remains of it when the order is
/// forgotten.
// An array with a length beside it, and no `Vec`: the library asks for no memory. No `ArrayVec`: it is not `Copy`.
#[derive(Drop)]
pub struct Sequence<T, const N: usize> {
    cells: [T; N],
    len: usize,
    ghost whole: { length cells ≡ N },
    ghost within: { len ≤ N },
}

impl<T: Copy, const N: usize> Copy for Sequence<T, N> {}

// Written out: no `Clone` can be derived for a struct with a ghost field and a type parameter.
impl<T: Copy, const N: usize> Clone for Sequence<T, N> {
    ghost is_clone = { λ x y. y ≡ x };

    ghost is_infallible = { λ _. ⊤ };

    fn clone(&self) -> Result<Self, AllocError> {
        Ok(*self)
    }
}

mod methods;
