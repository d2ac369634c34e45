// A whole run: a list of calls on a new session.
ghost use Rattle.std.specs.Prelude.{IfOk};
ghost use Rattle.law.specs.Runs.{CallLaw};
ghost use Rattle.session.specs.View.{view};
ghost use Rattle.session.specs.Runs.{call_of, reply_of, Ran};

use crate::faults::QuestionFault;
use crate::session::Session;
use crate::verdict::Verdict;
use clausal::faults::AddFault;
use modal::rule::Rule;
use oracle::Oracle;
use std::alloc::{AllocError, Global};

/// A call on a session: a rule to add, a question by the bits of the rules' numbers, or to forget.
#[derive(Drop)]
pub enum Call {
    Add(Rule),
    Question(u16),
    Forget,
}

/// What a call is answered.
#[derive(Clone, Copy, PartialEq, Eq, Debug)]
pub enum Reply {
    Added(Result<u8, AddFault>),
    Answered(Result<Verdict, QuestionFault>),
    Forgotten,
}

impl<O: Oracle> Session<O> {
    // Carries out a call.
    fn carry_out(&mut self, call: Call) -> Reply
        ensures { CallLaw (view O.Oracle.entries self.old) (call_of call) (reply_of result) (view O.Oracle.entries self.new) }
    {
        match call {
            Call::Add(rule) => Reply::Added(self.add(rule)),
            Call::Question(rules) => Reply::Answered(self.question(rules, &mut [])),
            Call::Forget => {
                self.forget();
                Reply::Forgotten
            }
        }
    }
}

/// Carries out the calls in their order on a new session over the oracle, and answers their replies. A question draws
/// nothing.
pub fn run<O: Oracle + Drop>(
    oracle: O,
    calls: Vec<Call>,
    heap: Global,
) -> Result<Vec<Reply>, AllocError>
    ensures { IfOk result (λ replies. Ran calls.items replies.items) }
{
    let mut session = Session::new(oracle);
    let mut replies = Vec::new(heap);
    for call in calls {
        replies.push(session.carry_out(call))?;
    }
    Ok(replies)
}
