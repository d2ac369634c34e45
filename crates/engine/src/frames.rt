// The worlds under trial, and what a turn of the search leaves.
use crate::outcome::Outcome;
use atoms::assumptions::Assumptions;
use atoms::levels::Level;
use atoms::sets::AtomSet;
use clausal::modal_clauses::ModalClause;

/// A world under trial seeks a valuation, descends to its parts, or has all of them.
#[derive(Clone, Copy, PartialEq, Eq, Debug)]
pub(crate) enum Stage {
    Seeking,
    Descending,
    Settled,
}

/// What came back from the part below: nothing yet, a complete tree, or a core.
#[derive(Clone, Copy, PartialEq, Eq, Debug)]
pub(crate) enum Answer {
    Nothing,
    Open,
    Closed(Assumptions),
}

/// A world under trial: the literals that it is tried under, its valuation once it has one, the names of the fired
/// diamond clauses still to visit, the one being visited, its parent's row and its own.
#[derive(Clone, Copy, PartialEq, Eq, Debug)]
pub(crate) struct Frame {
    pub(crate) stage: Stage,
    pub(crate) under: Assumptions,
    pub(crate) valuation: AtomSet,
    pub(crate) unvisited: AtomSet,
    pub(crate) diamond: ModalClause,
    pub(crate) parent: u64,
    pub(crate) row: u64,
}

/// Where the search stands: the level of the world on top, how many worlds there are, and what came back from below.
#[derive(Clone, Copy, PartialEq, Eq, Debug)]
pub(crate) struct Cursor {
    pub(crate) level: Level,
    pub(crate) count: u64,
    pub(crate) answer: Answer,
}

/// What a turn leaves: where to go on, or how the question ends.
#[derive(Clone, Copy, PartialEq, Eq, Debug)]
pub(crate) enum Turn {
    Go(Cursor),
    Done(Outcome),
}
