// What a call replied: a result, or a refusal by number and detail.
use clausal::faults::AddFault;
use modal::faults::{Fault, ReadFault};
use modal::rule::Rule;
use session::faults::QuestionFault;
use session::verdict::Verdict;
use std::fmt;

#[derive(Clone, Copy, PartialEq, Eq)]
pub(crate) enum Reply {
    /// A rule of so many rows.
    Read(usize),
    Added(u8),
    Open(u64),
    Closed(u16),
    Refused { number: u8, detail: u64 },
}

impl fmt::Display for Reply {
    fn fmt<W: fmt::Write>(&self, f: &mut fmt::Formatter<W>) -> fmt::Result {
        match *self {
            Reply::Read(rows) => write!(f, "read, {rows} rows"),
            Reply::Added(number) => write!(f, "added, rule {number}"),
            Reply::Open(count) => write!(f, "open, {count} worlds"),
            Reply::Closed(core) => write!(f, "closed, core {core:#b}"),
            Reply::Refused { number, detail } => write!(f, "refused, {number}, detail {detail}"),
        }
    }
}

fn of_fault<F: Fault + Copy>(fault: F) -> Reply {
    Reply::Refused {
        number: fault.number(),
        detail: fault.detail(),
    }
}

pub(crate) fn of_reading(read: Result<Rule, ReadFault>) -> Reply {
    match read {
        Ok(rule) => Reply::Read(rule.rows().len()),
        Err(fault) => of_fault(fault),
    }
}

pub(crate) fn of_adding(added: Result<u8, AddFault>) -> Reply {
    match added {
        Ok(number) => Reply::Added(number),
        Err(fault) => of_fault(fault),
    }
}

pub(crate) fn of_asking(answer: Result<Verdict, QuestionFault>) -> Reply {
    match answer {
        Ok(Verdict::Open(count)) => Reply::Open(count),
        Ok(Verdict::Closed(core)) => Reply::Closed(core),
        Err(fault) => of_fault(fault),
    }
}
