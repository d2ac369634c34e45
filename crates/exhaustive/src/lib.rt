//! The exhaustive oracle, for tests.
//!
//! It tries every valuation of the named atoms that are not assumed, each atom in and out in turn, and asks for each
//! whether it makes every entry true. It promises no order, and its core is always all that was assumed: an oracle to
//! compare others with, small enough to be seen to be right. The entries stand in the store of `oracle`.
//!
//! - `Exhaustive::new`: an oracle without entries.
//! - `take`, `solve`, `forget`, `clear`: the calls of `Oracle`; `solve` says that its core is all that was assumed.
#![tactic(auto)]

ghost use Rattle.exhaustive.specs.Exhausts.{FindsAmong, exhaustive_entries};
ghost use Rattle.oracle.specs.Oracles.{Solves, Clears, WholeCore};

use atoms::assumptions::Assumptions;
use atoms::clauses::{Entry, all_hold};
use atoms::levels::Level;
use atoms::sets::AtomSet;
use oracle::Oracle;
use oracle::answers::{LevelFull, Solved};
use oracle::store::Store;

// A valuation that makes every entry true and differs from `base` at most at the atoms of `free`.
fn find(entries: &[Entry], free: AtomSet, base: AtomSet) -> Option<AtomSet>
    ensures { FindsAmong entries.now free base result }
{
    let Some(atom) = free.lowest() else {
        return all_hold(entries, base).then_some(base);
    };
    let rest = free.remove(atom);
    // A match, since the closure of an `or_else` calls `find` again and would need a contract of its own.
    match find(entries, rest, base.insert(atom)) {
        None => find(entries, rest, base.remove(atom)),
        found => found,
    }
}

/// An oracle that tries every valuation.
#[derive(Drop)]
pub struct Exhaustive {
    store: Store,
}

impl Exhaustive {
    /// An oracle without entries.
    pub fn new() -> Exhaustive
        ensures { Clears (exhaustive_entries result) }
    {
        Exhaustive {
            store: Store::new(),
        }
    }
}

// `take`, `forget` and `clear` go to the store, as in each oracle; why is said at the trait.
impl Oracle for Exhaustive {
    ghost entries = { exhaustive_entries };

    fn take(&mut self, level: Level, entry: Entry) -> Result<(), LevelFull> {
        self.store.take(level, entry)
    }

    fn solve(&mut self, level: Level, under: Assumptions) -> Solved
        ensures solves { Solves (exhaustive_entries self.old) (exhaustive_entries self.new) level under result }
        ensures core { WholeCore under result }
    {
        if under.clashes() {
            return Err(under);
        }
        let entries = self.store.entries(level);
        find(entries, under.free(entries), under.within).ok_or(under)
    }

    fn forget(&mut self) {
        self.store.forget();
    }

    fn clear(&mut self) {
        self.store.clear();
    }
}

#[cfg(test)]
mod tests {
    use super::*;
    use atoms::clauses::{Clause, Mark};

    fn either(a: u8, b: u8) -> Entry {
        Entry {
            clause: Clause {
                plain: AtomSet::NONE.insert(a).insert(b),
                negated: AtomSet::NONE,
            },
            mark: Mark::Learnt,
        }
    }

    #[test]
    fn contradictory_assumptions_are_the_core(rt: HostRuntime) {
        let under = Assumptions {
            within: AtomSet::LETTERS,
            without: AtomSet::LETTERS,
        };
        assert_eq!(rt; Exhaustive::new().solve(Level::ROOT, under), Err(under));
    }

    #[test]
    fn the_other_atom_is_in(rt: HostRuntime) {
        let level = Level::DEEPEST;
        let mut oracle = Exhaustive::new();
        assert!(rt; oracle.take(level, either(20, 63)).is_ok());
        let under = Assumptions {
            within: AtomSet::NONE,
            without: AtomSet::NONE.insert(20),
        };
        let valuation = AtomSet::NONE.insert(63);
        assert_eq!(rt; oracle.solve(level, under), Ok(valuation));
        let under = Assumptions {
            within: AtomSet::NONE,
            without: under.without.insert(63),
        };
        assert_eq!(rt; oracle.solve(level, under), Err(under));
        oracle.forget();
        assert_eq!(rt; oracle.solve(level, under), Ok(AtomSet::NONE));
    }
}
