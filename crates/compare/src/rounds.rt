// Oracles on the same entries and questions, and what must be so of their answers.
use crate::random_entries::{Shape, mark};
use atoms::assumptions::Assumptions;
use atoms::clauses::{Entry, Mark, all_hold};
use atoms::levels::Level;
use atoms::sets::AtomSet;
use oracle::Oracle;
use oracle::answers::Solved;
use oracle::entry_list::{DEFINITIONS, LEARNT};
use random::Random;
use std::alloc::{AllocError, Global};
use std::fmt;

/// What was seen.
#[derive(Clone, Copy, Default)]
pub(crate) struct Tally {
    questions: u32,
    satisfiable: u32,
    contradictory: u32,
    refused: u32,
    faults: u32,
}

impl fmt::Display for Tally {
    fn fmt<W: fmt::Write>(&self, f: &mut fmt::Formatter<W>) -> fmt::Result {
        let Tally {
            questions,
            satisfiable,
            contradictory,
            refused,
            faults,
        } = *self;
        writeln!(
            f,
            "{questions} questions: {satisfiable} satisfiable, {contradictory} under contradictory assumptions"
        )?;
        write!(f, "{refused} entries refused, {faults} faults")
    }
}

fn count(counter: &mut u32, seen: bool) {
    *counter = counter.saturating_add(u32::from(seen));
}

impl Tally {
    fn expect(&mut self, right: bool) {
        count(&mut self.faults, !right);
    }
}

/// The entries that one level is to hold.
#[derive(Drop)]
struct Held {
    level: Level,
    entries: Vec<Entry>,
}

impl Held {
    fn new(level: Level, heap: Global) -> Held {
        Held {
            level,
            entries: Vec::new(heap),
        }
    }

    // Counted and matched here again: a comparison shares no code with what it compares.
    fn has_room(&self, mark: Mark) -> bool {
        let limit = match mark {
            Mark::Definition => DEFINITIONS,
            Mark::Learnt => LEARNT,
        };
        let marked = self.entries.iter().filter(|entry| entry.mark == mark);
        marked.count() < limit
    }
}

fn obeys(valuation: AtomSet, under: Assumptions) -> bool {
    under.within.difference(valuation).is_empty()
        && under.without.intersection(valuation).is_empty()
}

fn is_part(core: Assumptions, under: Assumptions) -> bool {
    core.within.difference(under.within).is_empty()
        && core.without.difference(under.without).is_empty()
}

// Whether the answer is right: another oracle says whether the core holds up.
fn stands(answer: Solved, held: &Held, under: Assumptions, other: &mut dyn Oracle) -> bool {
    match answer {
        Ok(valuation) => obeys(valuation, under) && all_hold(&held.entries, valuation),
        Err(core) => is_part(core, under) && other.solve(held.level, core).is_err(),
    }
}

/// The oracles, what is drawn for them, and what was seen.
#[derive(Drop)]
pub(crate) struct Comparison {
    oracles: Vec<Box<dyn Oracle + Drop>>,
    random: Random,
    tally: Tally,
}

impl Comparison {
    pub(crate) fn new(oracles: Vec<Box<dyn Oracle + Drop>>, random: Random) -> Comparison {
        Comparison {
            oracles,
            random,
            tally: Tally::default(),
        }
    }

    pub(crate) fn tally(&self) -> Tally {
        self.tally
    }

    // Offers the entry to all oracles.
    fn offer(&mut self, held: &mut Held, entry: Entry) -> Result<(), AllocError> {
        let room = held.has_room(entry.mark);
        if room {
            held.entries.push(entry)?;
        }
        count(&mut self.tally.refused, !room);
        for oracle in &mut self.oracles {
            self.tally
                .expect(oracle.take(held.level, entry).is_ok() == room);
        }
        Ok(())
    }

    // Asks all oracles, and compares each answer with that of the one before, the first with the last.
    fn ask(&mut self, held: &Held, under: Assumptions) {
        // without an oracle there is no answer to compare
        let Some(last) = self.oracles.last_mut() else {
            return;
        };
        let mut before = last.solve(held.level, under);
        count(&mut self.tally.questions, true);
        count(&mut self.tally.contradictory, under.clashes());
        count(&mut self.tally.satisfiable, before.is_ok());
        for oracle in &mut self.oracles {
            let answer = oracle.solve(held.level, under);
            self.tally.expect(answer.is_ok() == before.is_ok());
            self.tally
                .expect(stands(before, held, under, &mut **oracle));
            before = answer;
        }
    }

    fn ask_some(&mut self, held: &Held, shape: Shape) {
        for literals in 0..5 {
            let under = shape.assumptions(&mut self.random, literals);
            self.ask(held, under);
        }
    }

    // Draws entries at two levels.
    fn fill(
        &mut self,
        held: &mut Held,
        other: &mut Held,
        shape: Shape,
        entries: u16,
    ) -> Result<(), AllocError> {
        for _ in 0..entries {
            let mark = mark(&mut self.random);
            let entry = shape.entry(&mut self.random, mark);
            self.offer(held, entry)?;
            let entry = shape.entry(&mut self.random, Mark::Definition);
            self.offer(other, entry)?;
        }
        Ok(())
    }

    fn forget(&mut self, held: &mut Held) {
        for oracle in &mut self.oracles {
            oracle.forget();
        }
        held.entries.retain(|entry| entry.mark == Mark::Definition);
    }

    fn clear(&mut self, held: &mut Held) {
        for oracle in &mut self.oracles {
            oracle.clear();
        }
        held.entries.clear();
    }

    /// One round: entries at two levels, questions, forget, one more entry, questions, clear, questions.
    pub(crate) fn round(
        &mut self,
        heap: Global,
        shape: Shape,
        entries: u16,
    ) -> Result<(), AllocError> {
        let mut held = Held::new(Level::new(self.random.below(7)).unwrap(), heap);
        let mut other = Held::new(Level::DEEPEST, heap);
        self.fill(&mut held, &mut other, shape, entries)?;
        self.ask_some(&held, shape);
        self.ask_some(&other, shape);
        self.forget(&mut held);
        self.ask_some(&held, shape);
        let entry = shape.entry(&mut self.random, Mark::Learnt);
        self.offer(&mut held, entry)?;
        self.ask_some(&held, shape);
        self.clear(&mut held);
        self.ask_some(&held, shape);
        Ok(())
    }
}
