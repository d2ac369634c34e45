// How an input falls into commands.
ghost use Rattle.std.specs.Prelude.{◌≡◌, ◌≤◌, Err, IfOk, MatchResult};
ghost use Rattle.console.specs.Pieces.{piece, pieces_of};
ghost use Rattle.console.specs.Splitting.{CommandFront, CommandUnread, piece_placed};

use crate::faults::InputFault;
use modal::kind::Kind;
use std::alloc::{AllocError, Global};

// An input has at most this many bytes.
const LONGEST: usize = 65_536;

/// A command, with what it takes.
#[derive(Clone, Copy, PartialEq, Eq, Debug)]
pub enum Command {
    /// The rows from the byte `start` up to the command are added.
    Add { start: usize },
    /// The rules of the set are asked, rule k by bit k.
    Ask(u16),
    Forget,
}

/// A command of the input or what is wrong in the place of one, and the byte where it stands.
#[derive(Clone, Copy, PartialEq, Eq, Debug)]
pub struct Piece {
    pub at: usize,
    pub read: Result<Command, InputFault>,
}

// The command of a kind and the bytes after it, with none for a row, and the bytes behind its body.
fn split(kind: u8, start: usize, bytes: &[u8]) -> Result<(Option<Command>, &[u8]), InputFault>
    ensures { MatchResult result (λ found. CommandFront start kind bytes.now found.0 found.1.now) (λ fault. CommandUnread kind bytes.now fault) }
{
    match (kind, bytes) {
        (8, rest) => Ok((Some(Command::Add { start }), rest)),
        (9, [low, high, rest @ ..]) => {
            let set = u16::from(*low) + 256 * u16::from(*high);
            Ok((Some(Command::Ask(set)), rest))
        }
        (9, _) => Err(InputFault::CutOff),
        (10, rest) => Ok((Some(Command::Forget), rest)),
        _ => {
            let row = Kind::try_from(kind).map_err(|_| InputFault::UnknownKind)?;
            let rest = bytes.get(row.body_len()..).ok_or(InputFault::CutOff)?;
            Ok((None, rest))
        }
    }
}

// What is wrong, in the place of a command.
fn refused(at: usize, fault: InputFault) -> Piece
    ensures { result ≡ piece at (Err fault) }
{
    Piece {
        at,
        read: Err(fault),
    }
}

// The piece of a command at a byte. Only adding may stand after rows.
fn place(command: Command, start: usize, at: usize) -> Piece
    ensures { result ≡ piece_placed start at command }
{
    match command {
        Command::Ask(_) | Command::Forget if start != at => refused(at, InputFault::NotEnded),
        _ => Piece {
            at,
            read: Ok(command),
        },
    }
}

/// The commands of the input, and what is wrong between them.
#[tactic(auto, using(crate::proofs::Splitting::stopped, crate::proofs::Splitting::row_found, crate::proofs::Splitting::command_found, crate::proofs::Splitting::all_found))]
pub fn pieces(heap: Global, input: &[u8]) -> Result<Vec<Piece>, AllocError>
    ensures { IfOk result (λ found. found.items ≡ pieces_of input.now) }
{
    let mut found = Vec::new(heap);
    if input.len() > LONGEST {
        found.push(refused(LONGEST, InputFault::TooLong))?;
        return Ok(found);
    }
    let mut start = 0;
    let mut rest = input;
    while let Some((kind, bytes)) = rest.split_first() {
        let at = input.len() - rest.len();
        match split(*kind, start, bytes) {
            Ok((None, behind)) => rest = behind,
            Ok((Some(command), behind)) => {
                found.push(place(command, start, at))?;
                rest = behind;
                start = input.len() - rest.len();
            }
            Err(fault) => {
                found.push(refused(at, fault))?;
                return Ok(found);
            }
        }
    }
    if start != input.len() {
        found.push(refused(input.len(), InputFault::NotEnded))?;
    }
    Ok(found)
}
