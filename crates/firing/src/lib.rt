//! Box and diamond clauses under a valuation: which fire, what the part of a fired diamond clause is tried under, and
//! which clause is learnt from a core of that part.
//!
//! A clause fires if its name is in the valuation. The crate relies on `atoms` for sets, literals and assumptions and on
//! `clausal` for the clauses themselves. That what is learnt is what a question may learn is shown in
//! `proofs/FromCores.antt`; `engine` cites it. The contracts name three definitions (`specs/Firing.antt`): `NamesOf`,
//! `AssumesJust` and `LearntFromCore`.
//!
//! Clauses of a level:
//! - `firing::fired_names`: the names of those that fire
//! - `firing::named`: the first with a name
//!
//! The part of a fired diamond clause:
//! - `firing::part`: what it is tried under
//! - `learning::learnt_clause`: the clause that is learnt when it has a core
#![tactic(auto)]

pub mod firing;
pub mod learning;
#[cfg(test)]
mod tests;
