//! A session: rules that are accepted over an oracle, and questions whether some of them hold together.
//!
//! It owns the numbers of the rules, what a question assumes and what its answer says, and it hands an oracle the
//! definitions of each rule. It relies on `naming` for the table of rules, on `engine` for the search of worlds and on
//! `law` for what any list of calls leaves true. It bears the promise `CallLaw` of `law` on each call, after any list of
//! calls, over any oracle. What a call does to any session stands in `specs/Effects.antt`.
//!
//! The calls on a session, in `session`:
//! - `Session::new`: a session without rules, whatever the oracle held
//! - `Session::add`: takes in a rule and answers its number
//! - `Session::question`: whether the rules asked hold together, with a drawing if they do
//! - `Session::forget`: drops all that was learnt
//! - `Session::write`: the bytes of a rule that is held
//!
//! A list of them, in `runs`:
//! - `run`: carries out the calls on a new session and answers their replies
//!
//! What they answer:
//! - `verdict::Verdict`: open, with the number of worlds, or closed, with a core
//! - `faults::QuestionFault`: why a question has no verdict
//! - `faults::RuleFault`: why a rule is not written
#![tactic(auto)]

mod asking;
mod defining;
pub mod faults;
pub mod runs;
pub mod session;
pub mod verdict;
