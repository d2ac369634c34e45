//! What holds of a session after any list of calls, over any oracle, in the words of the logic. A session is here a
//! `State` of `clausal`; the crate `session` shows that each of its calls is a step of which this crate speaks.
//!
//! Read `specs/Calls.antt`, the calls and their replies, then `specs/Verdicts.antt`, what open, closed and full say, then
//! `specs/Runs.antt`, what a call does and where a list of calls can lead. The theorems on these (`specs/Laws.antt`):
//!
//! - `laws::sessions_sound`: a session that calls leave holds the clausal form of its rules, and what was learnt is forced
//! - `laws::replies_agree`: the same calls over two oracles have no replies that contradict each other
//! - `laws::open_from_tree`: a complete tree is an open answer
//! - `laws::closed_from_core`: a part of the question that no valuation allows is a closed answer
//! - `laws::full_from_part`: a full level and a part that has a core are a refusal with 22
#![tactic(auto)]

pub mod laws;
