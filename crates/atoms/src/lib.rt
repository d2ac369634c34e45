//! Atoms, clauses, entries, assumptions and levels: what an oracle is asked about.
//!
//! A level has the atoms 0 to 63, so a set of atoms is a 64-bit word, atom `a` as bit `a`, and a set operation is one
//! machine operation. Every contract speaks of membership: `has s a` says that atom `a` is in the set `s`, for every
//! number `a`; a number from 64 on is in no set. A clause is the set of its atoms and the set of the atoms that it
//! negates; a valuation, a function from numbers to Bool, makes it true if it has one of the first or lacks one of the
//! second (`makes`). The crate stands on the list words of `lists` alone.
//!
//! `sets`: the type `AtomSet`.
//! - `AtomSet::from`, `NONE`, `LETTERS`: the set of a word's bits, no atom, the letters.
//! - `member`, `is_empty`, `only_letters`, `len`, `lowest`: what a set has.
//! - `insert`, `remove`, `union`, `intersection`, `difference`, `complement`: sets made of sets.
//!
//! `clauses`: the types `Literal`, `Clause` and `Entry`.
//! - `Literal::positive`, `Literal::negation`: the literal that an atom is in, or out.
//! - `Clause::NONE`, `Clause::with`: a clause, made literal by literal.
//! - `Clause::holds`, `all_hold`: whether a valuation makes a clause, or every entry, true.
//! - `Clause::atoms`, `named`: the atoms that a clause names, or a list of entries.
//!
//! `assumptions`: the type `Assumptions`, the literals that a valuation is to obey.
//! - `Assumptions::NONE`, `with`, `remove`: one literal more, or less.
//! - `contains`, `clashes`: whether a literal is assumed, whether some atom is to be both in and out.
//! - `undecided`, `free`: the atoms on which nothing is assumed, and those of them that entries name.
//!
//! `levels`: the type `Level`, a number of steps from the root.
//! - `Level::new`, `ROOT`, `DEEPEST`, `ALL`: the levels 0 to 7.
//! - `number`, `usize::from`: the level's number.
//! - `next`, `previous`: one step further, one step nearer.
#![tactic(auto)]

pub mod assumptions;
pub mod clauses;
pub mod levels;
pub mod sets;
