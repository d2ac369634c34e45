//! The text form of a rule and a drawing, and the check of the one against the other, from bytes to verdict.
//!
//! A page is text: the first line with a number on it has the bytes of a rule in base sixteen, each later one a row of
//! a sheet in base ten. `specs/Pages.antt` says what a page has on it, byte by byte. Rule bytes are read by `modal`, and
//! the truth of a rule on a sheet is `sheet`'s. What the crate promises: the verdict on a text is that of Kripke
//! semantics on its rule and its sheet, or the first fault of its layer (`specs/Verdicts.antt`).
//!
//! Pages:
//! - `check::check`: the verdict on a text, with the rule and the sheet that it has
//! - `drawing::Drawing`: the rows of a tree in words, each world under its parent
//!
//! Refusals:
//! - `faults::PageFault`: why a text has no verdict, by its layer
//! - `faults::TextFault`: why a text is no page, with the byte of the text
#![tactic(auto)]

pub mod check;
pub mod drawing;
pub mod faults;
mod page;
mod reader;
