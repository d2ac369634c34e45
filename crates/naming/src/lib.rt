//! Taking in a rule: the table of a session's rules, names, box clauses and diamond clauses.
//!
//! It stands on `clausal`, which defines the clausal form of a session's rules. What it promises: a table holds the
//! clausal form of its rules, in every value of its type; a rule that is added is taken in as exactly its clausal form;
//! a refusal leaves the table as it was.
//!
//! A rule's reached places are found by a walk (`reach`), counted (`counts`) and named (`names`), lowest free name
//! first: level by level, in the order of row, plus before minus, the handle last. Names never become free again, so the
//! lowest free name is the one after the last that is taken. Then the names' definitions, box clauses and diamond
//! clauses are written (`level_table`).
//!
//! `table::Table` is the public type.
//!
//! To take in rules, at most `table::RULES` of them:
//! - `Table::new`: a table without rules
//! - `Table::add`: takes in a rule; answers its number and its definitions, or why it is refused
//! - `Definitions::at`: the definitions that the rule gives at a level, for an oracle
//!
//! To read what is held:
//! - `Table::len`: how many rules
//! - `Table::rows`: the rows of a rule
//! - `Table::handle`: the atom that stands for a rule, at level 0
//! - `Table::boxes`, `Table::diamonds`: the box and the diamond clauses of a level
#![tactic(auto)]

mod clauses;
mod counts;
pub mod definitions;
mod level_table;
mod names;
mod numbers;
mod reach;
mod reached;
pub mod table;
