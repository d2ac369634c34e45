ghost use Rattle.std.specs.Prelude.{◌≡◌, [], ◌∷◌, ◌++◌, is_ok, if◌then◌else◌};
ghost use Rattle.atoms.specs.Clauses.{definitions};
ghost use Rattle.oracle.specs.Oracles.{room};
ghost use Rattle.oracle.specs.Stores.{held_of};

use super::{DEFINITIONS, EntryList, LEARNT};
use crate::answers::LevelFull;
use atoms::clauses::{Clause, Entry, Mark};
use fixed_list::ArrayVec;

// What stands in a slot that holds no entry.
const BLANK: Entry = Entry {
    clause: Clause::NONE,
    mark: Mark::Definition,
};

impl EntryList {
    pub(crate) fn empty() -> EntryList
        ensures { held_of result ≡ [] }
    {
        EntryList {
            entries: ArrayVec::new(BLANK),
            definition_count: 0,
            learnt_count: 0,
        }
    }

    pub(crate) fn held(&self) -> &[Entry]
        ensures { result.now ≡ held_of self.now }
    {
        self.entries.as_slice()
    }

    // Whether there is room for one more entry of the mark.
    fn has_room(&self, mark: Mark) -> bool
        ensures { result ≡ room mark (held_of self.now) }
    {
        match mark {
            Mark::Definition => self.definition_count < DEFINITIONS,
            Mark::Learnt => self.learnt_count < LEARNT,
        }
    }

    // Appends the entry if there is room for one more of its mark.
    pub(crate) fn take(&mut self, entry: Entry) -> Result<(), LevelFull>
        ensures items { held_of self.new ≡ (if is_ok result then held_of self.old ++ entry ∷ [] else held_of self.old) }
        ensures when { is_ok result ≡ room entry.mark (held_of self.old) }
    {
        if !self.has_room(entry.mark) {
            return Err(LevelFull);
        }
        self.entries.push(entry).unwrap();
        match entry.mark {
            Mark::Definition => self.definition_count += 1,
            Mark::Learnt => self.learnt_count += 1,
        }
        Ok(())
    }

    // Drops the learnt entries, and leaves the definitions in their order.
    #[tactic(auto, using(crate::proofs::Storing::all_defined))]
    pub(crate) fn forget(&mut self)
        ensures { held_of self.new ≡ definitions (held_of self.old) }
    {
        // most levels have none, and a list made anew is all of the room that it may want
        if self.learnt_count > 0 {
            self.drop_learnt();
        }
    }

    // The same where there are some.
    fn drop_learnt(&mut self)
        ensures { held_of self.new ≡ definitions (held_of self.old) }
    {
        let mut kept = ArrayVec::new(BLANK);
        for entry in self
            .held()
            .iter()
            .filter(|entry| entry.mark == Mark::Definition)
        {
            kept.push(*entry).unwrap();
        }
        self.entries = kept;
        self.learnt_count = 0;
    }
}
