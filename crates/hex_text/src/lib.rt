//! Bytes as text: numbers of two hexadecimal digits, parted by blanks and ends of lines, with comments.
//!
//! The crate stands on the standard library alone. What it promises: the bytes that are read are those that the text
//! says, and a text that says none is refused at the first byte that cannot stand where it stands (`specs/Texts.antt`).
//!
//! - `reader::read`: the bytes that a text says
//! - `faults::TextFault`: why a text is not read, with the byte of the text
#![tactic(auto)]

pub mod faults;
mod place;
pub mod reader;
