// What a question is answered.

/// The rules asked hold together in a tree of so many worlds, or those of a part of the question hold together nowhere,
/// by the bits of their numbers.
#[derive(Clone, Copy, PartialEq, Eq, Debug)]
pub enum Verdict {
    Open(u64),
    Closed(u16),
}
