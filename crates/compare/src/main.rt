//! Runs the search, plain and exhaustive oracles on the same random entries and questions, and compares their answers:
//! valuations obey the assumptions and make every entry true, cores are parts of the assumptions and hold up under
//! another oracle, all verdicts agree, and entries are refused exactly at the limits. With the argument `time` it
//! measures how many questions a second the oracles answer.
#![tactic(auto)]

use exhaustive::Exhaustive;
use oracle::Oracle;
use plain::Plain;
use random::Random;
use search::Searcher;
use std::{env, io};

mod random_entries;
mod rounds;
mod timing;

use random_entries::Shape;
use rounds::Comparison;
use timing::time;

const ROUNDS: u8 = 100;

// So many entries that a level refuses some of each mark.
const FULL: u16 = 300;

fn compare(rt: &HostRuntime) -> io::Result<()> {
    let heap = rt.alloc();
    let mut oracles: Vec<Box<dyn Oracle + Drop>> = Vec::new(heap);
    oracles.push(Box::new(heap, Searcher::new())?)?;
    oracles.push(Box::new(heap, Plain::new())?)?;
    oracles.push(Box::new(heap, Exhaustive::new())?)?;
    let random = Random::new(0x9e37_79b9_7f4a_7c15);
    let mut comparison = Comparison::new(oracles, random);
    for number in 0..ROUNDS {
        let shape = Shape {
            first: number % 56,
            atoms: 3 + number % 6,
            literals: 1 + number % 4,
        };
        comparison.round(heap, shape, u16::from(number % 40))?;
    }
    let shape = Shape {
        first: 10,
        atoms: 9,
        literals: 5,
    };
    comparison.round(heap, shape, FULL)?;
    println!(rt; "{}", comparison.tally())
}

fn main(rt: HostRuntime) -> io::Result<()> {
    if env::args(&rt)?.any(|argument| argument.as_str() == "time") {
        return time(&rt);
    }
    compare(&rt)
}
