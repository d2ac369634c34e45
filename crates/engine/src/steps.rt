// The turns of a question: what the world on top does next.
ghost use Rattle.std.specs.Prelude.{◌≡◌, ◌+◌, List, length};
ghost use Rattle.atoms.specs.Sets.{has, letters_of};
ghost use Rattle.clausal.specs.Clausal.{Orderly};
ghost use Rattle.engine.specs.Pending.{NextIs, NextOf};
ghost use Rattle.engine.specs.Steps.{NoCore, fresh, drawn_at, leaving, popped, TurnStarts, TurnDoes, QuietTurn};
ghost use Rattle.engine.specs.Worlds.{frame_at};
ghost use Rattle.engine.specs.declared.frames.Answer.TheVariants.{Closed};
ghost use Rattle.engine.specs.declared.frames.Stage.TheVariants.{Seeking, Descending};
ghost use Rattle.naming.specs.Tables.{diamonds_in};
ghost use Rattle.sheet.specs.declared.row.SheetRow.{SheetRow};
ghost use Rattle.stack.specs.Entries.{entries_of, slots_of};

use crate::frames::{Answer, Cursor, Frame, Stage, Turn};
use crate::outcome::Outcome;
use atoms::assumptions::Assumptions;
use atoms::clauses::{Entry, Literal, Mark};
use atoms::levels::Level;
use atoms::sets::AtomSet;
use clausal::modal_clauses::ModalClause;
use firing::firing::{fired_names, named, part};
use firing::learning::learnt_clause;
use naming::table::Table;
use oracle::Oracle;
use oracle::answers::LevelFull;
use sheet::row::SheetRow;
use stack::Stack;

// What a world visits before its first visit; nothing reads it.
const NO_DIAMOND: ModalClause = ModalClause {
    name: 0,
    literal: Literal {
        atom: 0,
        holds: false,
    },
};

// A new world under the literals, which seeks a valuation.
pub(crate) fn start(under: Assumptions, parent: u64, row: u64) -> Frame
    ensures { result ≡ fresh under parent row }
{
    Frame {
        stage: Stage::Seeking,
        under,
        valuation: AtomSet::NONE,
        unvisited: AtomSet::NONE,
        diamond: NO_DIAMOND,
        parent,
        row,
    }
}

// The letters of a valuation.
fn letters(valuation: AtomSet) -> AtomSet
    ensures { result ≡ letters_of (has valuation) }
{
    valuation.intersection(AtomSet::LETTERS)
}

// Writes the row of a world, if the sheet goes so far.
fn draw(sheet: &mut [SheetRow], frame: Frame, level: Level, valuation: AtomSet)
    ensures { sheet.new ≡ drawn_at sheet.old frame.row frame.parent level (letters_of (has valuation)) }
{
    let row = frame.row as usize;
    if row < sheet.len() {
        sheet[row] = SheetRow {
            parent: frame.parent,
            level: level.number(),
            letters: letters(valuation),
        };
    }
}

// The world on top has its answer: so has the world above for the part that it visits, or the question at the root.
fn leave(stack: &mut Stack<'_, Frame>, at: Cursor, answer: Answer, outcome: Outcome) -> Turn
    requires { length (entries_of stack.old) ≡ at.level + 1 }
    ensures turn { result ≡ leaving at answer outcome }
    ensures frames { entries_of stack.new ≡ popped at (entries_of stack.old) }
    ensures room { length (slots_of stack.new) ≡ length (slots_of stack.old) }
{
    match at.level.previous() {
        None => Turn::Done(outcome),
        Some(level) => {
            stack.pop();
            Turn::Go(Cursor {
                level,
                count: at.count,
                answer,
            })
        }
    }
}

// A world seeks a valuation: with one it goes on to its parts, with a core it closes.
fn seek<O: Oracle>(
    oracle: &mut O,
    table: &Table,
    stack: &mut Stack<'_, Frame>,
    sheet: &mut [SheetRow],
    at: Cursor,
) -> Turn
    requires starts { TurnStarts stack.old at }
    requires stage { (frame_at (entries_of stack.old) at.level).stage ≡ Seeking }
    ensures { TurnDoes table.now (O.Oracle.entries oracle.old) stack.old sheet.old at (O.Oracle.entries oracle.new) stack.new sheet.new result }
{
    let frame = stack.top().unwrap();
    match oracle.solve(at.level, frame.under) {
        Err(core) => leave(stack, at, Answer::Closed(core), Outcome::Closed(core)),
        Ok(valuation) => {
            draw(sheet, frame, at.level, valuation);
            let unvisited = fired_names(table.diamonds(at.level), valuation);
            let descending = Frame {
                stage: Stage::Descending,
                valuation,
                unvisited,
                ..frame
            };
            stack.replace_top(descending).unwrap();
            Turn::Go(Cursor {
                answer: Answer::Nothing,
                ..at
            })
        }
    }
}

// The diamond clause that is visited next: that with the lowest name of those still to visit.
fn next(diamonds: &[ModalClause], unvisited: AtomSet) -> Option<ModalClause>
    ensures { NextOf diamonds.now unvisited result }
{
    named(diamonds, unvisited.lowest()?)
}

// A world tries the part of a fired diamond clause, one level further.
fn visit(table: &Table, stack: &mut Stack<'_, Frame>, at: Cursor, diamond: ModalClause) -> Cursor
    requires starts { TurnStarts stack.old at }
    requires stage { (frame_at (entries_of stack.old) at.level).stage ≡ Descending }
    requires ready { NoCore at.answer }
    requires orderly { Orderly at.level (diamonds_in table.now at.level) }
    requires next { NextIs (diamonds_in table.now at.level) (frame_at (entries_of stack.old) at.level).unvisited diamond }
    ensures { QuietTurn table.now stack.old at stack.new result }
{
    let frame = stack.top().unwrap();
    let under = part(table.boxes(at.level), frame.valuation, diamond.literal);
    let waiting = Frame {
        unvisited: frame.unvisited.remove(diamond.name),
        diamond,
        ..frame
    };
    stack.replace_top(waiting).unwrap();
    stack.push(start(under, frame.row, at.count)).unwrap();
    Cursor {
        level: at.level.next().unwrap(),
        count: at.count + 1,
        answer: Answer::Nothing,
    }
}

// A world with a valuation visits the next of its fired diamond clauses, or is settled.
fn descend(table: &Table, stack: &mut Stack<'_, Frame>, at: Cursor) -> Cursor
    requires starts { TurnStarts stack.old at }
    requires stage { (frame_at (entries_of stack.old) at.level).stage ≡ Descending }
    requires ready { NoCore at.answer }
    ensures { QuietTurn table.now stack.old at stack.new result }
{
    let frame = stack.top().unwrap();
    match next(table.diamonds(at.level), frame.unvisited) {
        Some(diamond) => visit(table, stack, at, diamond),
        None => {
            let settled = Frame {
                stage: Stage::Settled,
                ..frame
            };
            stack.replace_top(settled).unwrap();
            Cursor {
                answer: Answer::Nothing,
                ..at
            }
        }
    }
}

// The part that a world visits has closed: the world learns a clause from the core and seeks again.
fn learn<O: Oracle>(
    oracle: &mut O,
    table: &Table,
    stack: &mut Stack<'_, Frame>,
    at: Cursor,
    core: Assumptions,
) -> Turn
    requires starts { TurnStarts stack.old at }
    requires stage { (frame_at (entries_of stack.old) at.level).stage ≡ Descending }
    requires closed { at.answer ≡ Closed core }
    ensures { (sheet : List SheetRow) → TurnDoes table.now (O.Oracle.entries oracle.old) stack.old sheet at (O.Oracle.entries oracle.new) stack.new sheet result }
{
    let frame = stack.top().unwrap();
    let clause = learnt_clause(table.boxes(at.level), frame.valuation, frame.diamond, core);
    let entry = Entry {
        clause,
        mark: Mark::Learnt,
    };
    match oracle.take(at.level, entry) {
        Err(LevelFull) => Turn::Done(Outcome::Full(at.level)),
        Ok(()) => {
            stack
                .replace_top(start(frame.under, frame.parent, frame.row))
                .unwrap();
            // the worlds of its finished parts are discarded
            Turn::Go(Cursor {
                level: at.level,
                count: frame.row + 1,
                answer: Answer::Nothing,
            })
        }
    }
}

// One turn: the stage of the world on top decides, and what came back from below.
pub(crate) fn step<O: Oracle>(
    oracle: &mut O,
    table: &Table,
    stack: &mut Stack<'_, Frame>,
    sheet: &mut [SheetRow],
    at: Cursor,
) -> Turn
    requires starts { TurnStarts stack.old at }
    ensures { TurnDoes table.now (O.Oracle.entries oracle.old) stack.old sheet.old at (O.Oracle.entries oracle.new) stack.new sheet.new result }
{
    let frame = stack.top().unwrap();
    match (frame.stage, at.answer) {
        (Stage::Seeking, _) => seek(oracle, table, stack, sheet, at),
        (Stage::Descending, Answer::Nothing | Answer::Open) => Turn::Go(descend(table, stack, at)),
        (Stage::Descending, Answer::Closed(core)) => learn(oracle, table, stack, at, core),
        (Stage::Settled, _) => leave(stack, at, Answer::Open, Outcome::Open(at.count)),
    }
}
