//! The plain oracle: it counts.
//!
//! It counts over the atoms that the level's entries name and that are not assumed; the others are as assumed, else
//! out. It tries these valuations in counting order, that is, by the number that the bits of the valuation write, and
//! drops each at the first entry that it makes false. `Counted` of `specs/Counts.antt` says which valuation that
//! finds. It misses none, since whether the entries are true depends only on the named atoms (`complete` of
//! `proofs/Completing.antt`). The entries stand in the store of `oracle`, and what each call promises is said there.
//!
//! - `Plain::new`: an oracle without entries.
//! - `take`, `solve`, `forget`, `clear`: the calls of `Oracle`; `solve` says which answer it gives and that its core is
//!   all that was assumed.
#![tactic(auto)]

ghost use Rattle.std.specs.Prelude.{◌≡◌, MatchOption};
ghost use Rattle.oracle.specs.Oracles.{Finds, Solves, Clears, WholeCore, valuation_in};
ghost use Rattle.plain.specs.Counts.{Part, Counted, NextPart};
ghost use Rattle.plain.specs.Plains.{plain_entries};

use atoms::assumptions::Assumptions;
use atoms::clauses::Entry;
use atoms::levels::Level;
use atoms::sets::AtomSet;
use oracle::Oracle;
use oracle::answers::{LevelFull, Solved};
use oracle::store::Store;

// The next part of `mask` in counting order, after `part`: adding one to `part` with all bits outside the mask set
// carries over these bits.
fn next_part(part: AtomSet, mask: AtomSet) -> Option<AtomSet>
    requires { Part part.bits mask.bits }
    ensures { MatchOption result (part.bits ≡ mask.bits) (λ w. NextPart part.bits mask.bits w.bits) }
{
    if part == mask {
        return None;
    }
    Some(AtomSet::from((part.bits | !mask.bits) + 1 & mask.bits))
}

// The first valuation in counting order that makes every entry true.
fn count(entries: &[Entry], under: Assumptions) -> Option<AtomSet>
    ensures finds { Finds entries.now under result }
    ensures order { Counted entries.now under result }
{
    if under.clashes() {
        return None;
    }
    let free = under.free(entries);
    let mut counted = AtomSet::NONE;
    // With a label, as docs/DECISIONS.md has it for this oracle: the inner loop is left for the next valuation at the first
    // entry that is false.
    'next: loop {
        let valuation = under.within.union(counted);
        for entry in entries {
            if !entry.clause.holds(valuation) {
                counted = next_part(counted, free)?;
                continue 'next;
            }
        }
        return Some(valuation);
    }
}

/// An oracle that counts.
#[derive(Drop)]
pub struct Plain {
    store: Store,
}

impl Plain {
    /// An oracle without entries.
    pub fn new() -> Plain
        ensures { Clears (plain_entries result) }
    {
        Plain {
            store: Store::new(),
        }
    }
}

// `take`, `forget` and `clear` go to the store, as in each oracle; why is said at the trait.
impl Oracle for Plain {
    ghost entries = { plain_entries };

    fn take(&mut self, level: Level, entry: Entry) -> Result<(), LevelFull> {
        self.store.take(level, entry)
    }

    fn solve(&mut self, level: Level, under: Assumptions) -> Solved
        ensures solves { Solves (plain_entries self.old) (plain_entries self.new) level under result }
        ensures core { WholeCore under result }
        ensures order { Counted (plain_entries self.old level) under (valuation_in result) }
    {
        count(self.store.entries(level), under).ok_or(under)
    }

    fn forget(&mut self) {
        self.store.forget();
    }

    fn clear(&mut self) {
        self.store.clear();
    }
}
