// How a question ends.
use atoms::assumptions::Assumptions;
use atoms::levels::Level;

/// What a question ends with: a complete tree of so many worlds, a core, or a level that is full of learnt entries.
#[derive(Clone, Copy, PartialEq, Eq, Debug)]
pub enum Outcome {
    Open(u64),
    Closed(Assumptions),
    Full(Level),
}
