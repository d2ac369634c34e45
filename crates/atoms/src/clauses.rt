ghost use Rattle.std.specs.Prelude.{◌≡◌, ℕ};
ghost use Rattle.atoms.specs.Clauses.{positive, negation, makes, makes_all, names, has_atom, with_literal};
ghost use Rattle.atoms.specs.Sets.{has};

use crate::sets::AtomSet;

/// An atom that is to be in (`holds`) or out.
#[derive(Clone, Copy, PartialEq, Eq, Debug)]
pub struct Literal {
    pub atom: u8,
    pub holds: bool,
}

/// A set of literals: its atoms, and those whose negations it has.
#[derive(Clone, Copy, PartialEq, Eq, Debug)]
pub struct Clause {
    pub plain: AtomSet,
    pub negated: AtomSet,
}

/// What an entry is there for: it defines a name, or it was learnt from a refutation.
#[derive(Clone, Copy, PartialEq, Eq, Debug)]
pub enum Mark {
    Definition,
    Learnt,
}

#[derive(Clone, Copy, PartialEq, Eq, Debug)]
pub struct Entry {
    pub clause: Clause,
    pub mark: Mark,
}

impl Literal {
    /// The atom is in.
    pub fn positive(atom: u8) -> Literal
        ensures { result ≡ positive atom }
    {
        Literal { atom, holds: true }
    }

    /// The atom is out.
    pub fn negation(atom: u8) -> Literal
        ensures { result ≡ negation atom }
    {
        Literal { atom, holds: false }
    }
}

impl Clause {
    /// No literal.
    pub const NONE: Clause = Clause {
        plain: AtomSet::NONE,
        negated: AtomSet::NONE,
    };

    /// The clause with one literal more. A number that is no atom adds nothing.
    pub fn with(self, literal: Literal) -> Clause
        ensures { result ≡ with_literal self literal }
    {
        if literal.holds {
            Clause {
                plain: self.plain.insert(literal.atom),
                ..self
            }
        } else {
            Clause {
                negated: self.negated.insert(literal.atom),
                ..self
            }
        }
    }

    /// Whether the valuation makes one of the literals true.
    pub fn holds(self, valuation: AtomSet) -> bool
        ensures { result ≡ makes (has valuation) self }
    {
        let plain = self.plain.intersection(valuation);
        let negated = self.negated.difference(valuation);
        !plain.union(negated).is_empty()
    }

    /// The atoms that the clause names.
    pub fn atoms(self) -> AtomSet
        ensures { (i : ℕ) → has result i ≡ has_atom self i }
    {
        self.plain.union(self.negated)
    }
}

/// Whether the valuation makes every entry true.
pub fn all_hold(entries: &[Entry], valuation: AtomSet) -> bool
    ensures { result ≡ makes_all (has valuation) entries.now }
{
    entries.iter().all(|entry| entry.clause.holds(valuation))
}

/// The atoms that the entries name.
pub fn named(entries: &[Entry]) -> AtomSet
    ensures { (i : ℕ) → has result i ≡ names entries.now i }
{
    let mut all = AtomSet::NONE;
    for entry in entries {
        all = all.union(entry.clause.atoms());
    }
    all
}
