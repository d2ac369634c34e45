// An oracle that counts how often it is asked.

use atoms::assumptions::Assumptions;
use atoms::clauses::Entry;
use atoms::levels::Level;
use oracle::Oracle;
use oracle::answers::{LevelFull, Solved};
use std::cell::Cell;

/// The oracle, and how often it was asked for a valuation.
#[derive(Drop)]
pub(crate) struct Counting<'a, O> {
    oracle: O,
    solves: &'a Cell<u64>,
}

impl<'a, O> Counting<'a, O> {
    pub(crate) fn new(oracle: O, solves: &'a Cell<u64>) -> Counting<'a, O> {
        Counting { oracle, solves }
    }
}

impl<O: Oracle> Oracle for Counting<'_, O> {
    ghost entries = { λ counting. O.Oracle.entries counting.oracle };

    fn take(&mut self, level: Level, entry: Entry) -> Result<(), LevelFull> {
        self.oracle.take(level, entry)
    }

    fn solve(&mut self, level: Level, under: Assumptions) -> Solved {
        self.solves.set(self.solves.get().saturating_add(1));
        self.oracle.solve(level, under)
    }

    fn forget(&mut self) {
        self.oracle.forget();
    }

    fn clear(&mut self) {
        self.oracle.clear();
    }
}
