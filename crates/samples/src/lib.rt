//! Worked examples of the definitions of `modal`, `clausal` and `law`: one table of cases (`specs/Samples.antt`), with what
//! each says, so that a reader can compare the definitions with what is meant by them.
//!
//! - `laws::samples_hold`: every case of the table holds
//!
//! It follows from three theorems (`specs/Laws.antt`):
//!
//! - `laws::fitting_rules_held`: rules that fit are held by some session
//! - `laws::met_has_tree`: rules that some world meets have a complete tree
//! - `laws::worlds_counted`: how many worlds the complete trees of a rule have whose diamonds all hold at the root
#![tactic(auto)]

pub mod laws;
