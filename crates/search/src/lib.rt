//! The search oracle.
//!
//! It follows a clause whose only undecided literal is the last that can make it true, and otherwise tries the lowest
//! undecided atom both ways, first out, then in; each trial is a smaller search of the same kind. The trail is a
//! record of the atoms that are in and out so far, and a guard puts it back at the end of every trial. The relation
//! `Searched` of `specs/Searches.antt` says which answer this order of trial gives; that such an answer is right is the
//! lemma `searched_finds` of `proofs/Soundness.antt`. Before it tries an atom, it asks whether every entry is true with
//! all undecided atoms out, and if so answers that: it is what the trials would come to, by the lemma `out_searched` of
//! `proofs/AllOut.antt`. The entries stand in the store of `oracle`, and what each call promises is said there.
//!
//! - `Searcher::new`: an oracle without entries.
//! - `take`, `solve`, `forget`, `clear`: the calls of `Oracle`; `solve` says which answer it gives and that its core is
//!   all that was assumed.
//!
//! Inside, `judging` says what a trail makes of a clause and of a list of entries, and `searching` tries.
#![tactic(auto)]

ghost use Rattle.oracle.specs.Oracles.{Solves, Clears, WholeCore, valuation_in};
ghost use Rattle.search.specs.Searches.{SearchedFrom};
ghost use Rattle.search.specs.Searchers.{searcher_entries};

use atoms::assumptions::Assumptions;
use atoms::clauses::Entry;
use atoms::levels::Level;
use oracle::Oracle;
use oracle::answers::{LevelFull, Solved};
use oracle::store::Store;

mod judging;
mod searching;
mod status;

use searching::{search, start};

/// An oracle that searches.
#[derive(Drop)]
pub struct Searcher {
    store: Store,
}

impl Searcher {
    /// An oracle without entries.
    pub fn new() -> Searcher
        ensures { Clears (searcher_entries result) }
    {
        Searcher {
            store: Store::new(),
        }
    }
}

// `take`, `forget` and `clear` go to the store, as in each oracle; why is said at the trait.
impl Oracle for Searcher {
    ghost entries = { searcher_entries };

    fn take(&mut self, level: Level, entry: Entry) -> Result<(), LevelFull> {
        self.store.take(level, entry)
    }

    fn solve(&mut self, level: Level, under: Assumptions) -> Solved
        ensures solves { Solves (searcher_entries self.old) (searcher_entries self.new) level under result }
        ensures core { WholeCore under result }
        ensures order { SearchedFrom (searcher_entries self.old level) under (valuation_in result) }
    {
        let entries = self.store.entries(level);
        let mut trail = start(entries, under);
        search(entries, &mut trail).ok_or(under)
    }

    fn forget(&mut self) {
        self.store.forget();
    }

    fn clear(&mut self) {
        self.store.clear();
    }
}
