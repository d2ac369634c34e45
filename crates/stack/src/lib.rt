//! A stack whose entries stand in a slice that the caller lends, so that no push fails for want of memory. It relies on no
//! other crate; `naming` keeps the places of a walk on one, `engine` the worlds under trial.
//!
//! `entries_of s` is what the stack `s` holds, oldest first, and `below_top s` the same without the top. The entries fill
//! the first slots; a slot after them may hold anything. A stack has at most as many entries as it has slots. A call that
//! alters it keeps the slots, as many as before and still those that were lent (`SameSlots`).
//!
//! - `new`: the empty stack over a slice.
//! - `len`, `is_empty`: how many entries there are, and whether there is none.
//! - `push`: puts an entry on top, or hands it back where no slot is left.
//! - `pop`, `top`: the top, taken off or left there.
//! - `replace_top`: puts an entry in the place of the top.
#![tactic(auto)]

ghost use Rattle.std.specs.Prelude.{◌≤◌, length};

mod methods;
#[cfg(test)]
mod tests;

/// A stack: the first `len` of the slots, the top last.
// A length beside lent slots: the caller says how many there are, and no stack may fail for want of memory; and a clause
// `slots` on each call that alters it, since no ghost field relates what a stack was to what it is.
#[derive(Drop)]
pub struct Stack<'a, T> {
    slots: &'a mut [T],
    len: usize,
    ghost within: { len ≤ length slots.now },
}
