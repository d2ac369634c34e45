//! A list of at most `N` items, kept in an array. It stands on no crate, and promises what the list holds after each
//! call.
//!
//! `items_of v` (`specs/Items.antt`) is what the list `v` holds, in the order in which the items came. The items fill the
//! first slots of the array; what stands in the slots after them is no item, and no call shows it.
//!
//! - `ArrayVec::new`: the empty list
//! - `len`, `is_empty`, `as_slice`: how many items it has, whether it has none, and the items in place
//! - `push`: appends an item, or hands it back where the list is full
#![tactic(auto)]

ghost use Rattle.std.specs.Prelude.{◌≡◌, ◌≤◌, length, ⊤};

use std::alloc::AllocError;

mod methods;
#[cfg(test)]
mod tests;

/// A list of at most `N` items: the first `len` of the slots.
// The list of the crate `arrayvec` cannot be copied, as a rule's list of rows is, and wants a default of every item.
pub struct ArrayVec<T, const N: usize> {
    items: [T; N],
    len: usize,
    ghost whole: { length items ≡ N },
    ghost within: { len ≤ N },
}

// By hand, since no derive copies a type with ghost fields over a type parameter.
impl<T: Copy, const N: usize> Clone for ArrayVec<T, N> {
    ghost is_clone = { λ v w. w ≡ v };

    ghost is_infallible = { λ _. ⊤ };

    fn clone(&self) -> Result<Self, AllocError> {
        Ok(*self)
    }
}

impl<T: Copy, const N: usize> Copy for ArrayVec<T, N> {}
