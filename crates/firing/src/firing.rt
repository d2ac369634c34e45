// Which clauses fire under a valuation, and what the part of a diamond clause is tried under.
ghost use Rattle.std.specs.Prelude.{◌≡◌, ◌∷◌, ◌==◌};
ghost use Rattle.std.specs.List.{find};
ghost use Rattle.atoms.specs.Sets.{has};
ghost use Rattle.clausal.specs.States.{fired, literals};
ghost use Rattle.firing.specs.Firing.{AssumesJust, NamesOf};

use atoms::assumptions::Assumptions;
use atoms::clauses::Literal;
use atoms::sets::AtomSet;
use clausal::modal_clauses::ModalClause;

/// The names of the clauses that fire.
pub fn fired_names(clauses: &[ModalClause], valuation: AtomSet) -> AtomSet
    ensures { NamesOf result (fired (has valuation) clauses.now) }
{
    clauses
        .iter()
        .filter(|clause| valuation.member(clause.name))
        .fold(AtomSet::NONE, |names, clause| names.insert(clause.name))
}

/// The first clause with the name.
pub fn named(clauses: &[ModalClause], name: u8) -> Option<ModalClause>
    ensures { result ≡ find (λ d. d.name == name) clauses.now }
{
    clauses.iter().copied().find(|clause| clause.name == name)
}

/// What the part of a diamond clause is tried under: the diamond clause's literal and those of the fired box clauses.
pub fn part(boxes: &[ModalClause], valuation: AtomSet, diamond: Literal) -> Assumptions
    ensures { AssumesJust result (diamond ∷ literals (fired (has valuation) boxes.now)) }
{
    boxes
        .iter()
        .filter(|fired| valuation.member(fired.name))
        .fold(
            Assumptions::NONE.with(diamond),
            |all, fired| all.with(fired.literal),
        )
}
