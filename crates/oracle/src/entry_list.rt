ghost use Rattle.std.specs.Prelude.{◌≡◌, ◌≤◌, length};
ghost use Rattle.atoms.specs.Clauses.{definitions, learnt};
ghost use Rattle.fixed_list.specs.Items.{items_of};

use atoms::clauses::Entry;
use fixed_list::ArrayVec;

mod methods;

/// How many definitions a level may hold.
pub const DEFINITIONS: usize = 97;

/// How many learnt entries a level may hold.
pub const LEARNT: usize = 128;

/// Room for both.
const SLOTS: usize = DEFINITIONS + LEARNT;

/// The entries of one level, in the order in which they came, and how many of them have each mark.
// No model: where a type is copied its model gives every field back, and what stands in a free slot is no entry.
#[derive(Clone, Copy)]
pub struct EntryList {
    entries: ArrayVec<Entry, SLOTS>,
    // counted as they come: to count at each `take` and `forget` would need the same facts again and go over the list
    definition_count: usize,
    learnt_count: usize,
    ghost definitions_counted: { length (definitions (items_of entries)) ≡ definition_count },
    ghost learnt_counted: { length (learnt (items_of entries)) ≡ learnt_count },
    ghost definitions_few: { definition_count ≤ 97 },
    ghost learnt_few: { learnt_count ≤ 128 },
}
