// What was wrong with a sheet.
ghost use Rattle.std.specs.Prelude.{Some};
ghost use Rattle.sheet.specs.Faults.{sheet_refusal};
ghost use Rattle.sheet.specs.Words.{sheet_words};

use modal::faults::Fault;
use std::error::Error;
use std::fmt;

/// Why a sheet shows no tree.
#[derive(Clone, Copy, PartialEq, Eq, Debug)]
pub enum SheetFault {
    /// The sheet is empty, or its first row is blank.
    NoRoot,
    /// The lowest unlawful row before the first blank.
    Unlawful(u64),
}

impl Fault for SheetFault {
    ghost refusal = { sheet_refusal };

    fn number(self) -> u8 {
        match self {
            SheetFault::NoRoot | SheetFault::Unlawful(_) => 9,
        }
    }

    fn detail(self) -> u64 {
        match self {
            SheetFault::NoRoot => 0,
            SheetFault::Unlawful(row) => row,
        }
    }
}

impl fmt::Display for SheetFault {
    ghost output = { λ fault. Some (sheet_words fault) };

    fn fmt<W: fmt::Write>(&self, f: &mut fmt::Formatter<W>) -> fmt::Result {
        match *self {
            SheetFault::NoRoot => write!(f, "it is empty or its first row is blank"),
            SheetFault::Unlawful(row) => write!(f, "row {row} is not lawful"),
        }
    }
}

impl Error for SheetFault {}
