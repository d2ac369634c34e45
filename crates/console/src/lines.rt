// What each command of an input says.
ghost use Rattle.std.specs.Prelude.{◌≡◌, ◌<◌, ◌≤◌, ◌^◌, length, IfOk, IfErr, Some};
ghost use Rattle.session.specs.View.{view};
ghost use Rattle.console.specs.Carrying.{Within, CarriedOut, answer_line};
ghost use Rattle.console.specs.Lines.{refusal_line, offset_of, line_text, LinesOf};

use crate::faults::ConsoleFault;
use crate::pieces::{Command, Piece, pieces};
use modal::faults::Fault;
use modal::rule::Rule;
use oracle::Oracle;
use search::Searcher;
use session::session::Session;
use session::verdict::Verdict;
use std::alloc::{AllocError, Global};
use std::fmt;

/// What a command says.
#[derive(Clone, Copy, PartialEq, Eq, Debug)]
pub enum Line {
    /// The number of the rule added.
    Added(u8),
    Open,
    /// The rules of the core, rule k by bit k.
    Closed(u16),
    Forgotten,
    /// The number of the refusal, the byte of the input at which it is found, and the detail.
    Refused {
        number: u8,
        offset: usize,
        detail: u64,
    },
}

impl fmt::Display for Line {
    ghost output = { λ line. Some (line_text line) };

    fn fmt<W: fmt::Write>(&self, f: &mut fmt::Formatter<W>) -> fmt::Result {
        match *self {
            Line::Added(number) => write!(f, "A {number}"),
            Line::Open => write!(f, "O"),
            Line::Closed(core) => write!(f, "C {core}"),
            Line::Forgotten => write!(f, "F"),
            Line::Refused {
                number,
                offset,
                detail,
            } => write!(f, "R {number} {offset} {detail}"),
        }
    }
}

// Carries out a piece on the session.
fn carry_out<O: Oracle>(
    session: &mut Session<O>,
    input: &[u8],
    piece: Piece,
) -> Result<Line, ConsoleFault>
    requires { Within (length input.now) piece }
    ensures done { CarriedOut input.now (view O.Oracle.entries session.old) piece (answer_line piece result) (view O.Oracle.entries session.new) }
    ensures offset { IfErr result (λ fault. offset_of piece fault ≤ piece.at) }
{
    match piece.read? {
        Command::Add { start } => {
            let mut rule = Rule::new();
            rule.read(&input[start..piece.at])?;
            Ok(Line::Added(session.add(rule)?))
        }
        Command::Ask(rules) => match session.question(rules, &mut [])? {
            Verdict::Open(_) => Ok(Line::Open),
            Verdict::Closed(core) => Ok(Line::Closed(core)),
        },
        Command::Forget => {
            session.forget();
            Ok(Line::Forgotten)
        }
    }
}

impl Piece {
    // The byte of a fault: of the faulty row of a rule that cannot be read, else of the piece.
    fn offset(&self, fault: ConsoleFault) -> usize
        requires { offset_of self.now fault < 2 ^ 64 }
        ensures { result ≡ offset_of self.now fault }
    {
        match (fault, self.read) {
            (ConsoleFault::Rule(fault), Ok(Command::Add { start })) => start + fault.start().byte,
            _ => self.at,
        }
    }

    // The line of a fault.
    fn refused(&self, fault: &ConsoleFault) -> Line
        requires { offset_of self.now fault.now < 2 ^ 64 }
        ensures { result ≡ refusal_line self.now fault.now }
    {
        Line::Refused {
            number: fault.number(),
            offset: self.offset(*fault),
            detail: fault.detail(),
        }
    }
}

// Carries out a piece on the session, and says what came of it.
fn answer<O: Oracle>(session: &mut Session<O>, input: &[u8], piece: Piece) -> Line
    requires { Within (length input.now) piece }
    ensures { CarriedOut input.now (view O.Oracle.entries session.old) piece result (view O.Oracle.entries session.new) }
{
    match carry_out(session, input, piece) {
        Ok(line) => line,
        Err(fault) => piece.refused(&fault),
    }
}

/// Carries out the commands of the input on a new session over the oracle, and answers their lines.
pub fn lines_over<O: Oracle + Drop>(
    heap: Global,
    oracle: O,
    input: &[u8],
) -> Result<Vec<Line>, AllocError>
    ensures { IfOk result (λ lines. LinesOf input.now lines.items) }
{
    let pieces = pieces(heap, input)?;
    let mut session = Session::new(oracle);
    let mut lines = Vec::new(heap);
    for piece in &pieces {
        lines.push(answer(&mut session, input, *piece))?;
    }
    Ok(lines)
}

/// Carries out the commands of the input on a new session over the oracle that searches, and answers their lines.
pub fn lines(heap: Global, input: &[u8]) -> Result<Vec<Line>, AllocError>
    ensures { IfOk result (λ lines. LinesOf input.now lines.items) }
{
    lines_over(heap, Searcher::new(), input)
}
