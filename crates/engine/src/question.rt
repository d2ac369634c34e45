// One question, from its first world to its outcome.
ghost use Rattle.std.specs.Prelude.{◌≡◌, length};
ghost use Rattle.engine.specs.Outcomes.{Questioned};
ghost use Rattle.engine.specs.Steps.{outset, tidied, KeepsAll, TurnStarts};
ghost use Rattle.engine.specs.declared.frames.Turn.TheVariants.{Done};
ghost use Rattle.stack.specs.Entries.{entries_of};

use crate::frames::{Answer, Cursor, Frame, Turn};
use crate::outcome::Outcome;
use crate::steps::{start, step};
use atoms::assumptions::Assumptions;
use atoms::levels::{LEVELS, Level};
use naming::table::Table;
use oracle::Oracle;
use sheet::row::SheetRow;
use stack::Stack;

// Takes turns until the outcome, from a stack with the first world alone. The sheet holds what was drawn last.
fn run<O: Oracle>(
    oracle: &mut O,
    table: &Table,
    stack: &mut Stack<'_, Frame>,
    sheet: &mut [SheetRow],
) -> Outcome
    requires starts { TurnStarts stack.old outset }
    ensures keeps { KeepsAll table.now (O.Oracle.entries oracle.old) (entries_of stack.old) sheet.old outset (O.Oracle.entries oracle.new) (entries_of stack.new) sheet.new (Done result) }
    ensures rows { length sheet.new ≡ length sheet.old }
{
    let mut at = Cursor {
        level: Level::ROOT,
        count: 1,
        answer: Answer::Nothing,
    };
    loop {
        match step(oracle, table, stack, sheet, at) {
            Turn::Go(next) => at = next,
            Turn::Done(outcome) => return outcome,
        }
    }
}

// Blanks the rows that show no world of the outcome: those after its tree, or all if it has none or the tree does not fit.
fn tidy(sheet: &mut [SheetRow], outcome: &Outcome)
    ensures { sheet.new ≡ tidied outcome.now sheet.old }
{
    let shown = match *outcome {
        Outcome::Open(count) if count <= sheet.len() as u64 => count as usize,
        _ => 0,
    };
    sheet[shown..].fill(SheetRow::BLANK);
}

/// Asks whether a world can obey the assumptions, level by level. The first rows of the sheet show a complete tree, if
/// there is one and it fits; all others are blank.
pub fn ask<O: Oracle>(
    oracle: &mut O,
    table: &Table,
    under: Assumptions,
    sheet: &mut [SheetRow],
) -> Outcome
    ensures { Questioned table.now (O.Oracle.entries oracle.old) (O.Oracle.entries oracle.new) under sheet.old sheet.new result }
{
    let first = start(under, 0, 0);
    let mut slots = [first; LEVELS];
    let mut stack = Stack::new(&mut slots);
    stack.push(first).unwrap();
    let outcome = run(oracle, table, &mut stack, sheet);
    tidy(sheet, &outcome);
    outcome
}
