ghost use Rattle.std.specs.Prelude.{◌≡◌, ◌≤◌, [], ◌∷◌, ◌++◌, length, is_some, if◌then◌else◌, ◌==◌, nat_lt, Ok, Err};
ghost use Rattle.stack.specs.Entries.{entries_of, below_top, has_room, slots_of, lender_of, SameSlots};
ghost use Rattle.std.specs.Option.{option_to_list};

use crate::Stack;

impl<'a, T: Copy> Stack<'a, T> {
    /// The empty stack over the slots.
    pub fn new(slots: &'a mut [T]) -> Stack<'a, T>
        ensures entries { entries_of result ≡ [] }
        ensures same { slots_of result ≡ slots.old }
        ensures lent { lender_of result ≡ slots.entry.ghost_name }
    {
        Stack { slots, len: 0 }
    }

    /// How many entries the stack has, at most as many as slots.
    pub fn len(&self) -> usize
        ensures count { result ≡ length (entries_of self.now) }
        ensures small { result ≤ length (slots_of self.now) }
    {
        self.len
    }

    /// Whether the stack has no entry.
    pub fn is_empty(&self) -> bool
        ensures { result ≡ (length (entries_of self.now) == 0) }
    {
        self.len == 0
    }

    /// Puts `x` on top. If every slot is taken, `x` is handed back, and the entries stay.
    pub fn push(&mut self, x: T) -> Result<(), T>
        ensures answer { result ≡ (if has_room self.old then Ok tt else Err x) }
        ensures entries { entries_of self.new ≡ (if has_room self.old then entries_of self.old ++ x ∷ [] else entries_of self.old) }
        ensures slots { SameSlots self.old self.new }
    {
        if self.len < self.slots.len() {
            self.slots[self.len] = x;
            self.len += 1;
            Ok(())
        } else {
            Err(x)
        }
    }

    /// Takes the top off and answers it; none if the stack is empty.
    pub fn pop(&mut self) -> Option<T>
        ensures entries { entries_of self.old ≡ entries_of self.new ++ option_to_list result }
        ensures some { is_some result ≡ nat_lt 0 (length (entries_of self.old)) }
        ensures slots { SameSlots self.old self.new }
    {
        let top = self.top()?;
        self.len -= 1;
        Some(top)
    }

    /// The top; none if the stack is empty.
    pub fn top(&self) -> Option<T>
        ensures entries { entries_of self.now ≡ below_top self.now ++ option_to_list result }
        ensures some { is_some result ≡ nat_lt 0 (length (entries_of self.now)) }
    {
        self.slots[..self.len].last().copied()
    }

    /// Puts `x` in the place of the top. If the stack is empty, `x` is handed back.
    pub fn replace_top(&mut self, x: T) -> Result<(), T>
        ensures answer { result ≡ (if nat_lt 0 (length (entries_of self.old)) then Ok tt else Err x) }
        ensures entries { entries_of self.new ≡ (if nat_lt 0 (length (entries_of self.old)) then below_top self.old ++ x ∷ [] else entries_of self.old) }
        ensures slots { SameSlots self.old self.new }
    {
        if self.len == 0 {
            return Err(x);
        }
        // by index: what is written through `last_mut` left `entries` open
        self.slots[self.len - 1] = x;
        Ok(())
    }
}
