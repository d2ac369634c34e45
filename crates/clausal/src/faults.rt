// Why a rule is not taken in.
ghost use Rattle.std.specs.Prelude.{Some};
ghost use Rattle.clausal.specs.Faults.{add_refusal};
ghost use Rattle.clausal.specs.Words.{add_words};

use modal::faults::Fault;
use std::error::Error;
use std::fmt;

/// Why a rule is not added.
#[derive(Clone, Copy, PartialEq, Eq, Debug)]
pub enum AddFault {
    /// Sixteen rules are held.
    TooManyRules,
    /// The lowest level that would have more than 48 names.
    // A number, as the detail of a refusal is, and no `Level`, which would take fewer values.
    TooManyNames(u8),
}

impl fmt::Display for AddFault {
    ghost output = { λ fault. Some (add_words fault) };

    fn fmt<W: fmt::Write>(&self, f: &mut fmt::Formatter<W>) -> fmt::Result {
        match *self {
            AddFault::TooManyRules => write!(f, "16 rules are held"),
            AddFault::TooManyNames(level) => write!(f, "more than 48 names at level {level}"),
        }
    }
}

impl Error for AddFault {}

impl Fault for AddFault {
    ghost refusal = { add_refusal };

    fn number(self) -> u8 {
        match self {
            AddFault::TooManyRules => 20,
            AddFault::TooManyNames(_) => 21,
        }
    }

    fn detail(self) -> u64 {
        match self {
            AddFault::TooManyRules => 0,
            AddFault::TooManyNames(level) => u64::from(level),
        }
    }
}
