//! The console: an input of bytes, in which commands stand, is carried out on a new session, and each command has its
//! line. The crate owns how an input falls into commands and what the lines say; it relies on `session` for what a
//! reply means, and on `modal` for the kinds of rows and for reading rules.
//!
//! - `pieces::pieces`: into which commands an input falls, and what is wrong between them (`specs/Pieces.antt`)
//! - `lines::lines`: the line of each command, on a session over the oracle that searches (`specs/Lines.antt`)
//! - `lines::lines_over`: the same over a given oracle
//! - `laws::oracles_agree`: over any two oracles, the same input gets no replies that contradict each other
//! - `Fault::number`, `Fault::detail` of `InputFault` and `ConsoleFault`: what a line of a refusal has of it
#![tactic(auto)]

pub mod faults;
pub mod laws;
pub mod lines;
pub mod pieces;
