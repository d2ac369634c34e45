// The cases: what is asked for, and the reply that is due.
use crate::replies::{Reply, of_adding, of_asking, of_reading};
use modal::row::Row;
use modal::rule::Rule;
use rule_sets::choices;
use rule_writer::Writer;
use search::Searcher;
use session::session::Session;
use std::alloc::{AllocError, Global};

#[derive(Clone, Copy, PartialEq, Eq, Debug)]
pub(crate) enum Case {
    SixtyFourRows,
    SixtyFiveRows,
    SixteenRules,
    SeventeenRules,
    FortyEightNames,
    FortyNineNames,
    EightChoices,
}

impl Case {
    pub(crate) const ALL: [Case; 7] = [
        Case::SixtyFourRows,
        Case::SixtyFiveRows,
        Case::SixteenRules,
        Case::SeventeenRules,
        Case::FortyEightNames,
        Case::FortyNineNames,
        Case::EightChoices,
    ];

    pub(crate) fn name(self) -> &'static str {
        match self {
            Case::SixtyFourRows => "a rule of 64 rows",
            Case::SixtyFiveRows => "a rule of 65 rows",
            Case::SixteenRules => "the sixteenth rule of a session",
            Case::SeventeenRules => "the seventeenth",
            Case::FortyEightNames => "a rule that takes 48 names at level 0",
            Case::FortyNineNames => "a rule that takes 49",
            Case::EightChoices =>
                "eight letters, each at every part or at none, and a part that cannot exist",
        }
    }

    /// The reply that the definitions give.
    pub(crate) fn due(self) -> Reply {
        match self {
            Case::SixtyFourRows => Reply::Read(64),
            Case::SixtyFiveRows => refused(4, 64),
            Case::SixteenRules => Reply::Added(15),
            Case::SeventeenRules => refused(20, 0),
            Case::FortyEightNames => Reply::Added(0),
            Case::FortyNineNames => refused(21, 0),
            Case::EightChoices => refused(22, 0),
        }
    }

    /// The reply of the public calls.
    pub(crate) fn reply(self, heap: Global) -> anyhow::Result<Reply> {
        Ok(match self {
            Case::SixtyFourRows => of_reading(letters(heap, 64)?.rule()),
            Case::SixtyFiveRows => of_reading(letters(heap, 65)?.rule()),
            Case::SixteenRules => last_added(heap, 16)?,
            Case::SeventeenRules => last_added(heap, 17)?,
            Case::FortyEightNames => added(conjunction(heap, 47)?.rule()?),
            Case::FortyNineNames => added(conjunction(heap, 48)?.rule()?),
            Case::EightChoices => asked(choices(8, heap)?.rule()?)?,
        })
    }
}

fn refused(number: u8, detail: u64) -> Reply {
    Reply::Refused { number, detail }
}

fn letters(heap: Global, rows: u8) -> Result<Writer, AllocError> {
    let mut w = Writer::new(heap);
    for _ in 0..rows {
        let _ = w.row(Row::Letter(0))?;
    }
    Ok(w)
}

// The letter 0 and so many conjunctions, each of the row before with row 0.
fn conjunction(heap: Global, rows: u8) -> Result<Writer, AllocError> {
    let mut w = Writer::new(heap);
    let mut row = w.row(Row::Letter(0))?;
    for _ in 0..rows {
        row = w.row(Row::And(row, 0))?;
    }
    Ok(w)
}

fn added(rule: Rule) -> Reply {
    of_adding(Session::new(Searcher::new()).add(rule))
}

// The reply to the last of so many adds.
fn last_added(heap: Global, rules: u8) -> anyhow::Result<Reply> {
    let writer = letters(heap, 1)?;
    let mut session = Session::new(Searcher::new());
    for _ in 1..rules {
        session.add(writer.rule()?)?;
    }
    Ok(of_adding(session.add(writer.rule()?)))
}

fn asked(rule: Rule) -> anyhow::Result<Reply> {
    let mut session = Session::new(Searcher::new());
    session.add(rule)?;
    Ok(of_asking(session.question(1, &mut [])))
}
