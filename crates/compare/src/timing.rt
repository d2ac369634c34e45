// How many questions a second the oracles answer.
ghost use Rattle.std.specs.Prelude.{◌<◌, ◌≤◌};

use crate::random_entries::Shape;
use atoms::clauses::Mark;
use atoms::levels::Level;
use oracle::answers::LevelFull;
use oracle::entry_list::{DEFINITIONS, LEARNT};
use oracle::{Oracle, satisfiable};
use plain::Plain;
use random::Random;
use search::Searcher;
use std::io;
use std::time::Instant;

const QUESTIONS: u32 = 20_000;

// A level with so many random entries of each mark, so many literals in each; clauses and questions are over the lowest
// `atoms` atoms.
#[derive(Clone, Copy)]
struct Measurement {
    atoms: u8,
    definitions: usize,
    definition_literals: u8,
    learnt: usize,
    learnt_literals: u8,
    ghost some: { 0 < atoms },
    ghost within: { atoms ≤ 64 },
}

// Levels as full as they get. The plain oracle would count for too long on them.
const LARGE: [Measurement; 2] = [
    Measurement {
        atoms: 64,
        definitions: DEFINITIONS,
        definition_literals: 3,
        learnt: LEARNT,
        learnt_literals: 3,
    },
    Measurement {
        atoms: 64,
        definitions: DEFINITIONS,
        definition_literals: 3,
        learnt: LEARNT,
        learnt_literals: 2,
    },
];

const SMALL: [Measurement; 2] = [
    Measurement {
        atoms: 10,
        definitions: 20,
        definition_literals: 3,
        learnt: 20,
        learnt_literals: 3,
    },
    Measurement {
        atoms: 10,
        definitions: 60,
        definition_literals: 3,
        learnt: 60,
        learnt_literals: 3,
    },
];

impl Measurement {
    fn shape(self, literals: u8) -> Shape {
        Shape {
            first: 0,
            atoms: self.atoms,
            literals,
        }
    }
}

// An oracle whose root level is filled and asked.
#[derive(Drop)]
struct Timed<O> {
    name: &'static str,
    oracle: O,
    random: Random,
}

impl<O: Oracle + Drop> Timed<O> {
    fn new(name: &'static str, oracle: O) -> Timed<O> {
        Timed {
            name,
            oracle,
            random: Random::new(1),
        }
    }

    fn fill(&mut self, entries: usize, mark: Mark, shape: Shape) -> Result<(), LevelFull> {
        for _ in 0..entries {
            let entry = shape.entry(&mut self.random, mark);
            self.oracle.take(Level::ROOT, entry)?;
        }
        Ok(())
    }

    // Fills the level anew, always with the same entries.
    fn prepare(&mut self, measurement: Measurement) -> Result<(), LevelFull> {
        self.oracle.clear();
        self.random = Random::new(1);
        let shape = measurement.shape(measurement.definition_literals);
        self.fill(measurement.definitions, Mark::Definition, shape)?;
        let shape = measurement.shape(measurement.learnt_literals);
        self.fill(measurement.learnt, Mark::Learnt, shape)
    }

    // Asks the questions, each under two random literals, and says how many were satisfiable.
    fn ask(&mut self, shape: Shape) -> usize {
        let held = (0..QUESTIONS).filter(|_| {
            let under = shape.assumptions(&mut self.random, 2);
            satisfiable(&mut self.oracle, Level::ROOT, under)
        });
        held.count()
    }

    fn measure(&mut self, rt: &HostRuntime, measurement: Measurement) -> io::Result<()> {
        let name = self.name;
        if let Err(refusal) = self.prepare(measurement) {
            return println!(rt; "{name}: {refusal}");
        }
        let Measurement {
            atoms,
            definitions,
            definition_literals,
            learnt,
            learnt_literals,
        } = measurement;
        let start = Instant::now(rt)?;
        let found = self.ask(measurement.shape(definition_literals));
        let micros = start.elapsed(rt)?.as_micros().max(1);
        let rate = u128::from(QUESTIONS) * 1_000_000 / micros;
        println!(rt;
            "{name}, {atoms} atoms, {definitions} + {learnt} entries of {definition_literals} and {learnt_literals} literals: {rate} questions a second, {found} of {QUESTIONS} satisfiable"
        )
    }

    fn measure_all(&mut self, rt: &HostRuntime, measurements: &[Measurement]) -> io::Result<()> {
        for measurement in measurements {
            self.measure(rt, *measurement)?;
        }
        Ok(())
    }
}

pub(crate) fn time(rt: &HostRuntime) -> io::Result<()> {
    let mut search = Timed::new("search", Searcher::new());
    let mut plain = Timed::new("plain", Plain::new());
    search.measure_all(rt, &LARGE)?;
    search.measure_all(rt, &SMALL)?;
    plain.measure_all(rt, &SMALL)
}
