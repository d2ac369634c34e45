// Why a command is refused, whichever layer refuses it.
ghost use Rattle.std.specs.Prelude.{◌≡◌, Some};
ghost use Rattle.console.specs.Faults.{input_refusal, console_refusal};
ghost use Rattle.console.specs.Words.{input_words, console_words};
ghost use Rattle.console.specs.declared.faults.ConsoleFault.TheVariants as layer;

use clausal::faults::AddFault;
use modal::faults::{Fault, ReadFault};
use session::faults::QuestionFault;
use std::error::Error;
use std::fmt;

/// What is wrong with the input itself.
#[derive(Clone, Copy, PartialEq, Eq, Debug)]
pub enum InputFault {
    /// The kind is none of a row and no command's.
    UnknownKind,
    /// The body is cut off by the end of the input.
    CutOff,
    /// Rows stand before a question, before forgetting or at the end, and are dropped.
    NotEnded,
    /// The input has more than 65,536 bytes.
    TooLong,
}

impl fmt::Display for InputFault {
    ghost output = { λ fault. Some (input_words fault) };

    fn fmt<W: fmt::Write>(&self, f: &mut fmt::Formatter<W>) -> fmt::Result {
        let words = match *self {
            InputFault::UnknownKind => "the kind is over 0a",
            InputFault::CutOff => "the body is cut off",
            InputFault::NotEnded => "the rows before are not added",
            InputFault::TooLong => "there are more than 65536 bytes",
        };
        write!(f, "{words}")
    }
}

impl Error for InputFault {}

impl Fault for InputFault {
    ghost refusal = { input_refusal };

    fn number(self) -> u8 {
        match self {
            InputFault::UnknownKind => 2,
            InputFault::CutOff => 3,
            InputFault::NotEnded => 11,
            InputFault::TooLong => 12,
        }
    }

    fn detail(self) -> u64 {
        0
    }
}

/// Why a command is refused, with the fault of its layer.
#[derive(Clone, Copy, PartialEq, Eq, Debug)]
pub enum ConsoleFault {
    Input(InputFault),
    Rule(ReadFault),
    Add(AddFault),
    Question(QuestionFault),
}

impl fmt::Display for ConsoleFault {
    ghost output = { λ fault. Some (console_words fault) };

    fn fmt<W: fmt::Write>(&self, f: &mut fmt::Formatter<W>) -> fmt::Result {
        match *self {
            ConsoleFault::Input(fault) => write!(f, "the input: {fault}"),
            ConsoleFault::Rule(fault) => write!(f, "the rule, {fault}"),
            ConsoleFault::Add(fault) => write!(f, "adding: {fault}"),
            ConsoleFault::Question(fault) => write!(f, "the question: {fault}"),
        }
    }
}

impl Error for ConsoleFault {}

impl Fault for ConsoleFault {
    ghost refusal = { console_refusal };

    fn number(self) -> u8 {
        match self {
            ConsoleFault::Input(fault) => fault.number(),
            ConsoleFault::Rule(fault) => fault.number(),
            ConsoleFault::Add(fault) => fault.number(),
            ConsoleFault::Question(fault) => fault.number(),
        }
    }

    fn detail(self) -> u64 {
        match self {
            ConsoleFault::Input(fault) => fault.detail(),
            ConsoleFault::Rule(fault) => fault.detail(),
            ConsoleFault::Add(fault) => fault.detail(),
            ConsoleFault::Question(fault) => fault.detail(),
        }
    }
}

impl From<InputFault> for ConsoleFault {
    ghost from_gives = { λ f made. made ≡ layer.Input f };

    fn from(fault: InputFault) -> ConsoleFault {
        ConsoleFault::Input(fault)
    }
}

impl From<ReadFault> for ConsoleFault {
    ghost from_gives = { λ f made. made ≡ layer.Rule f };

    fn from(fault: ReadFault) -> ConsoleFault {
        ConsoleFault::Rule(fault)
    }
}

impl From<AddFault> for ConsoleFault {
    ghost from_gives = { λ f made. made ≡ layer.Add f };

    fn from(fault: AddFault) -> ConsoleFault {
        ConsoleFault::Add(fault)
    }
}

impl From<QuestionFault> for ConsoleFault {
    ghost from_gives = { λ f made. made ≡ layer.Question f };

    fn from(fault: QuestionFault) -> ConsoleFault {
        ConsoleFault::Question(fault)
    }
}
