//! The clausal form of rules: places, names, literals and clauses, and why a rule and its clauses say the same.
//!
//! A place is a row of a rule with a sign at a level. Each reached place at an and, or, box or diamond row has a name,
//! an atom of its level, and a few clauses say what the name implies; each rule has one name more, its handle.
//! docs/CLAUSES.md has all of it in words. The rows and formulas are those of `modal`, the literals, clauses and entries
//! those of `atoms`; the crate `naming` computes the clausal form, `firing` and `engine` work on it.
//!
//! The types:
//! - `places::Place`: a row of a rule with a sign, at a level.
//! - `names::Name`: what an atom from 16 on stands for.
//! - `shapes::Shape`: what a row is under a sign; `Shape::of` finds it.
//! - `modal_clauses::ModalClause`: a box clause or a diamond clause.
//! - `faults::AddFault`: why a rule is not taken in.
//!
//! The definitions, in `specs/`, in the order in which they build on each other:
//! - `States`: what a session holds, and how a world of a Kripke model reads its atoms.
//! - `Places`: which places are reached, and the literal of each.
//! - `Clausal`: which clauses the names give, and when a session holds the clausal form of its rules.
//! - `Counting`: how many names a rule takes, and so when it is refused.
//! - `Adding`: a new session, and a session with one rule more.
//! - `Trees`: complete trees of valuations, and the Kripke model that each is.
//! - `Questions`: the worlds that a question reaches, cores, and the clauses learnt from them.
//!
//! The theorems, in `specs/Laws.antt`, each borne by a function of `laws`:
//! - `places_counted`: the places that names are counted by are the reached ones, each once.
//! - `form_kept`: taking in one rule after another keeps the clausal form.
//! - `few_definitions`: a level has at most 97 definitions.
//! - `definitions_forced`: every definition is true at every world.
//! - `modal_clauses_read`: a box clause holds at every successor, a diamond clause at some.
//! - `complete_meets`: the root of a complete tree meets what its valuation says.
#![tactic(auto)]

pub mod faults;
pub mod laws;
pub mod modal_clauses;
pub mod names;
pub mod places;
pub mod shapes;
