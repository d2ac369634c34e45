// Why a question is refused, and why a rule that a session holds is not written.
ghost use Rattle.std.specs.Prelude.{Some};
ghost use Rattle.session.specs.Faults.{question_refusal, rule_refusal};
ghost use Rattle.session.specs.Words.{question_words, rule_words};

use atoms::levels::Level;
use modal::faults::{Fault, WriteFault};
use std::error::Error;
use std::fmt;

/// Why a question has no verdict.
#[derive(Clone, Copy, PartialEq, Eq, Debug)]
pub enum QuestionFault {
    /// The lowest number asked that no rule has.
    UnknownRule(u8),
    /// A learnt entry was needed beyond 128 at the level.
    LevelFull(Level),
}

impl fmt::Display for QuestionFault {
    ghost output = { λ fault. Some (question_words fault) };

    fn fmt<W: fmt::Write>(&self, f: &mut fmt::Formatter<W>) -> fmt::Result {
        match *self {
            QuestionFault::UnknownRule(number) => write!(f, "no rule has the number {number}"),
            QuestionFault::LevelFull(level) => {
                let level = level.number();
                write!(
                    f,
                    "more than 128 learnt entries are needed at level {level}"
                )
            }
        }
    }
}

impl Error for QuestionFault {}

impl Fault for QuestionFault {
    ghost refusal = { question_refusal };

    fn number(self) -> u8 {
        match self {
            QuestionFault::UnknownRule(_) => 8,
            QuestionFault::LevelFull(_) => 22,
        }
    }

    fn detail(self) -> u64 {
        match self {
            QuestionFault::UnknownRule(number) => u64::from(number),
            QuestionFault::LevelFull(level) => u64::from(level.number()),
        }
    }
}

/// Why a rule of a session is not written to a buffer.
#[derive(Clone, Copy, PartialEq, Eq, Debug)]
pub enum RuleFault {
    /// No rule has this number.
    UnknownRule(u8),
    /// The rule is held, and its bytes do not fit.
    NotWritten(WriteFault),
}

impl From<WriteFault> for RuleFault {
    ghost use Rattle.std.specs.Prelude.{◌≡◌};
    ghost use Rattle.session.specs.declared.faults.RuleFault.TheVariants.{NotWritten};

    ghost from_gives = { λ fault made. made ≡ NotWritten fault };

    fn from(fault: WriteFault) -> RuleFault {
        RuleFault::NotWritten(fault)
    }
}

impl fmt::Display for RuleFault {
    ghost output = { λ fault. Some (rule_words fault) };

    fn fmt<W: fmt::Write>(&self, f: &mut fmt::Formatter<W>) -> fmt::Result {
        match *self {
            RuleFault::UnknownRule(number) => write!(f, "no rule has the number {number}"),
            RuleFault::NotWritten(fault) => write!(f, "{fault}"),
        }
    }
}

impl Error for RuleFault {}

impl Fault for RuleFault {
    ghost refusal = { rule_refusal };

    fn number(self) -> u8 {
        match self {
            RuleFault::UnknownRule(_) => 8,
            RuleFault::NotWritten(fault) => fault.number(),
        }
    }

    fn detail(self) -> u64 {
        match self {
            RuleFault::UnknownRule(number) => u64::from(number),
            RuleFault::NotWritten(fault) => fault.detail(),
        }
    }
}
