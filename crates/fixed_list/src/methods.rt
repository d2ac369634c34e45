ghost use Rattle.std.specs.Prelude.{◌≡◌, ◌≤◌, [], ◌∷◌, ◌++◌, length, if◌then◌else◌, nat_lt, ◌==◌, Ok, Err};
ghost use Rattle.fixed_list.specs.Items.{items_of};

use crate::ArrayVec;

impl<T: Copy, const N: usize> ArrayVec<T, N> {
    /// The empty list. `blank` fills the slots, and is no item.
    pub fn new(blank: T) -> ArrayVec<T, N>
        ensures { items_of result ≡ [] }
    {
        ArrayVec {
            items: [blank; N],
            len: 0,
        }
    }

    /// How many items the list has, at most `N`.
    pub fn len(&self) -> usize
        ensures count { result ≡ length (items_of self.now) }
        ensures small { result ≤ N }
    {
        self.len
    }

    /// The items, in the order in which they came.
    pub fn as_slice(&self) -> &[T]
        ensures items { result.now ≡ items_of self.now }
        ensures small { length result.now ≤ N }
    {
        &self.items[..self.len]
    }

    /// Whether the list has no item.
    pub fn is_empty(&self) -> bool
        ensures { result ≡ (length (items_of self.now) == 0) }
    {
        self.len == 0
    }

    /// Appends `x`. If the list has `N` items, `x` is handed back, and nothing is altered.
    pub fn push(&mut self, x: T) -> Result<(), T>
        ensures answer { result ≡ (if nat_lt (length (items_of self.old)) N then Ok tt else Err x) }
        ensures items { items_of self.new ≡ (if nat_lt (length (items_of self.old)) N then items_of self.old ++ x ∷ [] else items_of self.old) }
    {
        if self.len < N {
            self.items[self.len] = x;
            self.len += 1;
            Ok(())
        } else {
            Err(x)
        }
    }
}
