//! Whether rules can be met together, by a tableau on their formulas: a second way to the answer, which shares nothing
//! with the clausal form and its engine but the rules and the logic, `modal`'s.
//!
//! - `satisfiable::satisfiable`: whether some world of some Kripke model meets all the rules (`specs/Deciding.antt`)
//!
//! A branch is a list of claims on one world, each a row of a rule with a sign. Claims come down to claims on smaller
//! formulas until only signed letters and claims on successors are left (`claims.rt`, `branches.rt`); then
//! each claim on some successor is a branch of its own, together with all the claims on every successor.
//!
//! It takes no care to be fast. A row that several rows share is taken up anew for each, and each step of a branch is a
//! call within the last, so the stack bounds how large the formulas may be, written out as trees.
#![tactic(auto)]

mod branches;
mod claims;
mod linked;
pub mod satisfiable;
