// The definitions that a rule gives.
ghost use Rattle.naming.specs.Tables.{definitions_at};
ghost use Rattle.std.specs.Prelude.{◌≡◌, ℕ, []};

use crate::counts::NAMES;
use atoms::clauses::Clause;
use atoms::levels::{LEVELS, Level};
use fixed_list::ArrayVec;

// At most two for each name.
const DEFINITIONS: usize = 2 * NAMES;

/// The definitions that one rule gives at one level.
pub(crate) type LevelClauses = ArrayVec<Clause, DEFINITIONS>;

/// The definitions of one rule, level by level.
#[derive(Drop)]
pub struct Definitions {
    pub(crate) levels: [LevelClauses; LEVELS],
}

impl Definitions {
    // No definitions at any level.
    pub(crate) fn none() -> Definitions
        ensures { (l : ℕ) → definitions_at result l ≡ [] }
    {
        Definitions {
            levels: [ArrayVec::new(Clause::NONE); LEVELS],
        }
    }

    /// The definitions of the level.
    pub fn at(&self, level: Level) -> &[Clause]
        ensures { result.now ≡ definitions_at self.now level }
    {
        self.levels[usize::from(level)].as_slice()
    }
}
