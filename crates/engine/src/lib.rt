//! One question: the search for a complete tree of worlds, level by level, over any oracle.
//!
//! The worlds under trial stand on a stack, the first at level 0. A world seeks a valuation; under it box and diamond
//! clauses fire, and the part of each fired diamond clause is tried one level further, lowest name first. When a part
//! closes, the world learns a clause from its core and seeks again.
//!
//! The crate relies on an `oracle` for the valuations of a world, on `naming` for the clauses of a level and on `firing`
//! for those that fire. It knows nothing of rules or models: that an outcome is true of the rules asked is shown in
//! `law`. `specs/Outcomes.antt` says what each outcome promises, `specs/Worlds.antt` what is known between two turns,
//! and `specs/Termination.antt` why a question ends.
//!
//! - `question::ask`: asks a question and draws its tree
//! - `outcome::Outcome`: how it ends
//! - `laws::drawn_shown`: the theorem on the sheet that shows a tree
#![tactic(auto)]

mod frames;
pub mod laws;
pub mod outcome;
pub mod question;
mod steps;
