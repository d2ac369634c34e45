ghost use Rattle.std.specs.Prelude.{◌≡◌};
ghost use Rattle.oracle.specs.Oracles.{Taken, Forgets, Clears};
ghost use Rattle.oracle.specs.Stores.{entries_of};

use crate::answers::LevelFull;
use crate::entry_list::EntryList;
use atoms::clauses::Entry;
use atoms::levels::{LEVELS, Level};

/// The entries of every level, in fixed memory.
#[derive(Drop)]
pub struct Store {
    levels: [EntryList; LEVELS],
}

impl Store {
    /// A store without entries.
    pub fn new() -> Store
        ensures { Clears (entries_of result) }
    {
        Store {
            levels: [EntryList::empty(); LEVELS],
        }
    }

    /// Appends the entry at the end of its level's list, unless there is no room for one more of its mark.
    pub fn take(&mut self, level: Level, entry: Entry) -> Result<(), LevelFull>
        ensures { Taken (entries_of self.old) (entries_of self.new) level entry result }
    {
        self.levels[usize::from(level)].take(entry)
    }

    /// Drops the learnt entries of every level, and leaves the definitions in their order.
    pub fn forget(&mut self)
        ensures { Forgets (entries_of self.old) (entries_of self.new) }
    {
        for level in &mut self.levels {
            level.forget();
        }
    }

    /// Empties every level.
    pub fn clear(&mut self)
        ensures { Clears (entries_of self.new) }
    {
        *self = Store::new();
    }

    /// The entries of the level, in their order.
    pub fn entries(&self, level: Level) -> &[Entry]
        ensures { result.now ≡ entries_of self.now level }
    {
        self.levels[usize::from(level)].held()
    }
}
