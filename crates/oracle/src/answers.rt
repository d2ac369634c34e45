ghost use Rattle.std.specs.Prelude.{Some, codes};

use atoms::assumptions::Assumptions;
use atoms::sets::AtomSet;
use std::error::Error;
use std::fmt;

/// What `solve` answers: a valuation, by the atoms that are in, or else a core.
pub type Solved = Result<AtomSet, Assumptions>;

/// Why an entry is refused: its level holds as many entries of the mark as it may.
#[derive(Clone, Copy, PartialEq, Eq, Debug)]
pub struct LevelFull;

impl fmt::Display for LevelFull {
    ghost output = { λ _. Some (codes "the level holds as many entries of the mark as it may") };

    fn fmt<W: fmt::Write>(&self, f: &mut fmt::Formatter<W>) -> fmt::Result {
        write!(f, "the level holds as many entries of the mark as it may")
    }
}

impl Error for LevelFull {}
