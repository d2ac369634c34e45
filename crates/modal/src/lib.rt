//! Rules of modal logic K: their rows, the bytes they are read from and written as, and the faults of both.
//!
//! A rule is a list of rows, each a formula over earlier rows; it says what its last row says. Which lists of rows
//! are a rule is part of the type `Rule`, so whoever holds one need not check it again. The crate stands on `lists`
//! and on the array list of `fixed_list`. It promises which rows bytes say or which fault is found first, and that
//! rows are written as the bytes that they are read from. `specs/Kripke.antt` has the logic, `specs/Rows.antt` what
//! rows say, `specs/Format.antt` the bytes.
//!
//! A rule, in the module `rule`:
//! - `Rule::new`, `Rule::default`: the single row true
//! - `Rule::read`: fills the rule with the rows that bytes say, or says what is wrong with them
//! - `Rule::write`: puts the bytes of the rule into a buffer
//! - `Rule::rows`: its rows, in place
//!
//! A list of rows that may be copied, in `row_list`:
//! - `RowList::from`: uses a rule up and leaves its rows; `RowList::rows`: these rows, in place
//! - `Rule::try_from`: the rule of such a list, if it has a row
//!
//! A row, in `row`, and its kind, in `kind`:
//! - `Row::bytes`: the bytes of the row
//! - `Kind::try_from`, `u8::from`: the kind that a byte stands for, and the byte of a kind
//! - `Kind::body_len`: how many bytes stand behind the kind
//!
//! Faults, in `faults`:
//! - `Fault::number`, `Fault::detail`: what a caller is told of a refusal, of whichever layer
//! - `ReadFault::start`: the row at fault and the byte where it begins
#![tactic(auto)]

pub mod faults;
pub mod kind;
mod reader;
pub mod row;
pub mod row_list;
pub mod rule;
