// What was wrong with the bytes of a rule, and where; and with the buffer that a rule was to be written to.
ghost use Rattle.std.specs.Prelude.{◌≡◌, Some, codes};
ghost use Rattle.modal.specs.Faults.{Refusal, read_refusal, read_start, write_refusal};
ghost use Rattle.modal.specs.Words.{read_reason, read_words, write_words};

use crate::row_list::MAX_ROWS;
use std::error::Error;
use std::fmt;

/// What a caller is told of a refusal: a number of its own and a detail.
pub trait Fault: Error {
    ghost refusal: { Self → Refusal };

    /// The number of the refusal.
    fn number(self) -> u8
        ensures { result ≡ (refusal self).number };

    /// The detail of the refusal.
    fn detail(self) -> u64
        ensures { result ≡ (refusal self).detail };
}

/// A row of the bytes, and the byte where it begins.
#[derive(Clone, Copy, PartialEq, Eq, Debug)]
pub struct RowStart {
    pub row: u8,
    pub byte: usize,
}

/// Why bytes are no rule, with the row at fault.
#[derive(Clone, Copy, PartialEq, Eq, Debug)]
pub enum ReadFault {
    NoBytes,
    UnknownKind(RowStart),
    CutOff(RowStart),
    TooManyRows(RowStart),
    ChildNotEarlier(RowStart),
    LetterTooHigh(RowStart),
    TooDeep(RowStart),
}

impl ReadFault {
    /// The row at fault and the byte where it begins.
    pub fn start(self) -> RowStart
        ensures { result ≡ read_start self }
    {
        match self {
            ReadFault::NoBytes => RowStart { row: 0, byte: 0 },
            ReadFault::UnknownKind(at)
            | ReadFault::CutOff(at)
            | ReadFault::TooManyRows(at)
            | ReadFault::ChildNotEarlier(at)
            | ReadFault::LetterTooHigh(at)
            | ReadFault::TooDeep(at) => at,
        }
    }

    fn words(self) -> &'static str
        ensures { result.now ≡ read_reason self }
    {
        match self {
            ReadFault::NoBytes => "there are no bytes",
            ReadFault::UnknownKind(_) => "the kind is over 07",
            ReadFault::CutOff(_) => "the body is cut off",
            ReadFault::TooManyRows(_) => "a 65th row begins",
            ReadFault::ChildNotEarlier(_) => "a child is not an earlier row",
            ReadFault::LetterTooHigh(_) => "the letter is over 14",
            ReadFault::TooDeep(_) => "the row is deeper than 7",
        }
    }
}

impl Fault for ReadFault {
    ghost refusal = { read_refusal };

    fn number(self) -> u8 {
        match self {
            ReadFault::NoBytes => 1,
            ReadFault::UnknownKind(_) => 2,
            ReadFault::CutOff(_) => 3,
            ReadFault::TooManyRows(_) => 4,
            ReadFault::ChildNotEarlier(_) => 5,
            ReadFault::LetterTooHigh(_) => 6,
            ReadFault::TooDeep(_) => 7,
        }
    }

    fn detail(self) -> u64 {
        match self {
            ReadFault::TooManyRows(_) => MAX_ROWS as u64,
            _ => u64::from(self.start().row),
        }
    }
}

impl fmt::Display for ReadFault {
    ghost output = { λ fault. Some (read_words fault) };

    fn fmt<W: fmt::Write>(&self, f: &mut fmt::Formatter<W>) -> fmt::Result {
        let RowStart { row, byte } = self.start();
        let words = self.words();
        write!(f, "row {row}, at byte {byte}: {words}")
    }
}

impl Error for ReadFault {}

/// Why a rule is not written.
#[derive(Clone, Copy, PartialEq, Eq, Debug)]
pub enum WriteFault {
    /// The buffer has fewer bytes than this number, which the rule needs.
    TooShort(usize),
}

impl Fault for WriteFault {
    ghost refusal = { write_refusal };

    fn number(self) -> u8 {
        match self {
            WriteFault::TooShort(_) => 10,
        }
    }

    fn detail(self) -> u64 {
        match self {
            WriteFault::TooShort(needed) => needed as u64,
        }
    }
}

impl fmt::Display for WriteFault {
    ghost output = { λ fault. Some (write_words fault) };

    fn fmt<W: fmt::Write>(&self, f: &mut fmt::Formatter<W>) -> fmt::Result {
        match *self {
            WriteFault::TooShort(needed) => write!(
                f,
                "the buffer is shorter than the {needed} bytes needed"
            ),
        }
    }
}

impl Error for WriteFault {}

/// A list with no row is no rule.
#[derive(Clone, Copy, PartialEq, Eq, Debug)]
pub struct NoRows;

impl fmt::Display for NoRows {
    ghost output = { λ _. Some (codes "there is no row") };

    fn fmt<W: fmt::Write>(&self, f: &mut fmt::Formatter<W>) -> fmt::Result {
        f.write_str("there is no row")
    }
}

impl Error for NoRows {}
