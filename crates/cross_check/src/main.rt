//! Asks sessions over two oracles about random rules, asks a second solver too, and compares what they say. Every drawn
//! tree goes through the truth check, and every core to the second solver. The arguments are how many sets of rules, and
//! the seed; with `list` before them, the sets are printed with the verdict on each.
#![tactic(auto)]

mod comparing;
mod tally;

use comparing::Comparison;
use random::Random;
use random_rules::{Shape, draw_all};
use rule_sets::RuleSet;
use std::alloc::{AllocError, Global};
use std::env;
use std::process::ExitCode;

const USAGE: &str = "usage: cross_check [list] [SETS [SEED]]
Draws sets of random rules, asks about each over two oracles and a second solver,
and prints how many differences there are. With `list`, prints the sets, each on a
line of its own: the verdict over the oracle that searches, and the bytes of each rule.";

const SETS: u32 = 300;

const SEED: u64 = 1;

/// What the arguments ask for: to compare, or to list the sets.
#[derive(Clone, Copy)]
struct Order {
    list: bool,
    sets: u32,
    seed: u64,
}

// The order that the arguments give, if they are as the usage says.
fn ordered(rt: &HostRuntime) -> anyhow::Result<Option<Order>> {
    let mut arguments = env::args(rt)?.skip(1).peekable();
    let list = arguments
        .next_if(|argument| argument.as_str() == "list")
        .is_some();
    let sets = match arguments.next() {
        Some(argument) => argument.parse().ok(),
        None => Some(SETS),
    };
    let seed = match arguments.next() {
        Some(argument) => argument.parse().ok(),
        None => Some(SEED),
    };
    Ok(match (sets, seed, arguments.next()) {
        (Some(sets), Some(seed), None) => Some(Order { list, sets, seed }),
        _ => None,
    })
}

// Four to nine random rules over one to three letters.
fn draw(random: &mut Random, heap: Global) -> Result<RuleSet, AllocError> {
    let letters = 1 + random.below(3);
    let depth = 1 + random.below(3);
    // more rules over more letters, so that about as many sets can be met as not
    let count = 3 + letters + random.below(4);
    let rules = draw_all(random, Shape { letters, depth }, count, heap)?;
    Ok(RuleSet::new(rules))
}

fn compare(rt: &HostRuntime, order: Order) -> anyhow::Result<()> {
    let mut random = Random::new(order.seed);
    let mut comparison = Comparison::new(rt.alloc())?;
    for _ in 0..order.sets {
        let set = draw(&mut random, rt.alloc())?;
        comparison.compare(set, &mut random)?;
    }
    println!(rt; "seed {}: {}", order.seed, comparison.tally())?;
    Ok(())
}

fn list(rt: &HostRuntime, order: Order) -> anyhow::Result<()> {
    let mut random = Random::new(order.seed);
    for _ in 0..order.sets {
        let set = draw(&mut random, rt.alloc())?;
        println!(rt; "{}{set}", set.verdict()?)?;
    }
    Ok(())
}

fn main(rt: HostRuntime) -> anyhow::Result<ExitCode> {
    if env::args(&rt)?.any(|argument| argument.as_str() == "--help") {
        println!(rt; "{USAGE}")?;
        return Ok(ExitCode::SUCCESS);
    }
    let Some(order) = ordered(&rt)? else {
        eprintln!(rt; "{USAGE}")?;
        return Ok(ExitCode::FAILURE);
    };
    if order.list {
        list(&rt, order)?;
    } else {
        compare(&rt, order)?;
    }
    Ok(ExitCode::SUCCESS)
}
