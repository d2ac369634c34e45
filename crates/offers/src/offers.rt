// The offers: for each the rules that a session gets, all of which are asked together.
use modal::row::Row;
use rule_sets::{RuleSet, choices};
use rule_writer::Writer;
use std::alloc::{AllocError, Global};

const LANE_PAIR: u8 = 0;

const BALL_RETURN: u8 = 1;

const MACHINE: u8 = 2;

const SWEEP: u8 = 3;

const STRINGS: u8 = 4;

/// An offer for a centre: the root is the centre, its parts are lane pairs, and theirs are machines.
#[derive(Clone, Copy, PartialEq, Eq, Debug)]
pub(crate) enum Offer {
    /// One lane pair with a ball return and one without, each with a machine, every machine with a sweep.
    TwoLanePairs,
    /// A machine with strings, no such machine with a sweep, and every machine with one.
    StringsAndSweeps,
    /// Three kinds of part under each part, six levels deep.
    LargeHall,
    /// Four choices for all parts, and a part that no choice allows.
    FourChoices,
    /// Eight choices.
    EightChoices,
}

impl Offer {
    pub(crate) const ALL: [Offer; 5] = [
        Offer::TwoLanePairs,
        Offer::StringsAndSweeps,
        Offer::LargeHall,
        Offer::FourChoices,
        Offer::EightChoices,
    ];

    pub(crate) fn name(self) -> &'static str {
        match self {
            Offer::TwoLanePairs => "two lane pairs",
            Offer::StringsAndSweeps => "strings and sweeps",
            Offer::LargeHall => "a large hall",
            Offer::FourChoices => "four choices",
            Offer::EightChoices => "eight choices",
        }
    }

    /// The rules of the offer.
    pub(crate) fn rules(self, heap: Global) -> Result<RuleSet, AllocError> {
        let mut rules = Vec::new(heap);
        match self {
            Offer::TwoLanePairs => {
                rules.push(lane_pair(heap, true)?)?;
                rules.push(lane_pair(heap, false)?)?;
                rules.push(machine_in_each(heap)?)?;
                rules.push(sweep_where(heap, MACHINE, true)?)?;
            }
            Offer::StringsAndSweeps => {
                rules.push(strings_somewhere(heap)?)?;
                rules.push(sweep_where(heap, STRINGS, false)?)?;
                rules.push(sweep_where(heap, MACHINE, true)?)?;
            }
            Offer::LargeHall => rules.push(hall(heap)?)?,
            Offer::FourChoices => rules.push(choices(4, heap)?)?,
            Offer::EightChoices => rules.push(choices(8, heap)?)?,
        }
        Ok(RuleSet::new(rules))
    }
}

// The letter, or its denial.
fn literal(w: &mut Writer, letter: u8, holds: bool) -> Result<u8, AllocError> {
    let row = w.row(Row::Letter(letter))?;
    if holds { Ok(row) } else { w.row(Row::Not(row)) }
}

// The denial of the letter, or the row.
fn implies(w: &mut Writer, letter: u8, row: u8) -> Result<u8, AllocError> {
    let not = literal(w, letter, false)?;
    w.row(Row::Or(not, row))
}

// Some lane pair has a ball return, or some has none.
fn lane_pair(heap: Global, ball_return: bool) -> Result<Writer, AllocError> {
    let mut w = Writer::new(heap);
    let lane_pair = w.row(Row::Letter(LANE_PAIR))?;
    let told = literal(&mut w, BALL_RETURN, ball_return)?;
    let both = w.row(Row::And(lane_pair, told))?;
    let _ = w.row(Row::Diamond(both))?;
    Ok(w)
}

// Every lane pair has some machine.
fn machine_in_each(heap: Global) -> Result<Writer, AllocError> {
    let mut w = Writer::new(heap);
    let machine = w.row(Row::Letter(MACHINE))?;
    let has = w.row(Row::Diamond(machine))?;
    let told = implies(&mut w, LANE_PAIR, has)?;
    let _ = w.row(Row::Box(told))?;
    Ok(w)
}

// Every part of a part that has the letter has a sweep, or every such part has none.
fn sweep_where(heap: Global, letter: u8, sweep: bool) -> Result<Writer, AllocError> {
    let mut w = Writer::new(heap);
    let told = literal(&mut w, SWEEP, sweep)?;
    let told = implies(&mut w, letter, told)?;
    let here = w.row(Row::Box(told))?;
    let _ = w.row(Row::Box(here))?;
    Ok(w)
}

// Some part has a machine with strings.
fn strings_somewhere(heap: Global) -> Result<Writer, AllocError> {
    let mut w = Writer::new(heap);
    let machine = w.row(Row::Letter(MACHINE))?;
    let strings = w.row(Row::Letter(STRINGS))?;
    let both = w.row(Row::And(machine, strings))?;
    let here = w.row(Row::Diamond(both))?;
    let _ = w.row(Row::Diamond(here))?;
    Ok(w)
}

// Parts with the letter 0, with 1 and with 2, each with such parts again, six levels deep.
fn hall(heap: Global) -> Result<Writer, AllocError> {
    let mut w = Writer::new(heap);
    let kinds = [
        w.row(Row::Letter(0))?,
        w.row(Row::Letter(1))?,
        w.row(Row::Letter(2))?,
    ];
    let mut below = w.row(Row::True)?;
    for _ in 0..6 {
        let mut all = w.row(Row::True)?;
        for kind in kinds {
            let part = w.row(Row::And(kind, below))?;
            let some = w.row(Row::Diamond(part))?;
            all = w.row(Row::And(all, some))?;
        }
        below = all;
    }
    Ok(w)
}
