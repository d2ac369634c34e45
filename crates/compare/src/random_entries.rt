// Random clauses and assumptions.
ghost use Rattle.std.specs.Prelude.{◌+◌, ◌<◌, ◌≤◌};

use atoms::assumptions::Assumptions;
use atoms::clauses::{Clause, Entry, Literal, Mark};
use random::Random;

/// What to draw from: one or more atoms, `atoms` from `first` on, with `literals` literals to a clause.
#[derive(Clone, Copy)]
pub(crate) struct Shape {
    pub(crate) first: u8,
    pub(crate) atoms: u8,
    pub(crate) literals: u8,
    ghost some: { 0 < atoms },
    ghost within: { first + atoms ≤ 64 },
}

pub(crate) fn mark(random: &mut Random) -> Mark {
    if random.coin() {
        Mark::Definition
    } else {
        Mark::Learnt
    }
}

impl Shape {
    fn literal(self, random: &mut Random) -> Literal {
        Literal {
            atom: self.first + random.below(self.atoms),
            holds: random.coin(),
        }
    }

    pub(crate) fn entry(self, random: &mut Random, mark: Mark) -> Entry {
        let clause = (0..self.literals).fold(
            Clause::NONE,
            |clause, _| clause.with(self.literal(random)),
        );
        Entry { clause, mark }
    }

    /// Assumptions of so many literals, which may contradict each other.
    pub(crate) fn assumptions(self, random: &mut Random, literals: u8) -> Assumptions {
        (0..literals).fold(Assumptions::NONE, |all, _| all.with(self.literal(random)))
    }
}
