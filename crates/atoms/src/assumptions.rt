ghost use Rattle.std.specs.Prelude.{◌≡◌, ℕ, false, not, ◌&&◌, nat_lt};
ghost use Rattle.atoms.specs.Assuming.{assumes, clashing, Apart, settled, is_free, Joined, Dropped};
ghost use Rattle.atoms.specs.Sets.{has};

use crate::clauses::{Entry, Literal, named};
use crate::sets::AtomSet;

/// A set of literals that a valuation is to obey: the atoms that must be in, and those that must be out.
// Two sets, as a clause is, but a type of its own: a clause wants one of its literals true and assumptions want all, and
// of one type the one could be passed for the other.
#[derive(Clone, Copy, PartialEq, Eq, Debug)]
pub struct Assumptions {
    pub within: AtomSet,
    pub without: AtomSet,
}

impl Assumptions {
    pub const NONE: Assumptions = Assumptions {
        within: AtomSet::NONE,
        without: AtomSet::NONE,
    };

    /// Whether an atom must be both in and out.
    pub fn clashes(self) -> bool
        ensures answer { result ≡ clashing self }
        ensures apart { result ≡ false → Apart self }
    {
        !self.within.intersection(self.without).is_empty()
    }

    /// The atoms on which nothing is assumed.
    pub fn undecided(self) -> AtomSet
        ensures { (i : ℕ) → has result i ≡ nat_lt i 64 && not (settled self i) }
    {
        self.within.union(self.without).complement()
    }

    /// The atoms that the entries name and on which nothing is assumed.
    pub fn free(self, entries: &[Entry]) -> AtomSet
        ensures { (i : ℕ) → has result i ≡ is_free entries.now self i }
    {
        named(entries).intersection(self.undecided())
    }

    /// Whether the literal is among them.
    pub fn contains(self, literal: Literal) -> bool
        ensures { result ≡ assumes self literal }
    {
        if literal.holds {
            self.within.member(literal.atom)
        } else {
            self.without.member(literal.atom)
        }
    }

    /// All but the literal.
    pub fn remove(self, literal: Literal) -> Assumptions
        ensures { Dropped self literal result }
    {
        if literal.holds {
            Assumptions {
                within: self.within.remove(literal.atom),
                ..self
            }
        } else {
            Assumptions {
                without: self.without.remove(literal.atom),
                ..self
            }
        }
    }

    /// One literal more. A number that is no atom adds nothing.
    pub fn with(self, literal: Literal) -> Assumptions
        ensures { Joined self literal result }
    {
        if literal.holds {
            Assumptions {
                within: self.within.insert(literal.atom),
                ..self
            }
        } else {
            Assumptions {
                without: self.without.insert(literal.atom),
                ..self
            }
        }
    }
}
