// The clause that a world learns from a core of the part of a fired diamond clause.
ghost use Rattle.std.specs.Prelude.{◌≡◌, ◌<◌};
ghost use Rattle.atoms.specs.Clauses.{negation as negation_of};
ghost use Rattle.atoms.specs.Assuming.{assumes, Dropped};
ghost use Rattle.atoms.specs.Sets.{has};
ghost use Rattle.clausal.specs.Clausal.{Rising};
ghost use Rattle.firing.specs.Firing.{LearntFromCore};

use atoms::assumptions::Assumptions;
use atoms::clauses::{Clause, Literal};
use atoms::sets::AtomSet;
use clausal::modal_clauses::ModalClause;

/// The clause learnt from a core of the part of a fired diamond clause: the negations of the diamond clause's name and,
/// for each other literal of the core, of the lowest name of a fired box clause with this literal.
#[tactic(auto, using(crate::proofs::Choosing::chosen_none, crate::proofs::Choosing::chosen_passed, crate::proofs::Choosing::chosen_more))]
pub fn learnt_clause(
    boxes: &[ModalClause],
    valuation: AtomSet,
    diamond: ModalClause,
    core: Assumptions,
) -> Clause
    ensures { Rising boxes.now → diamond.name < 64 → LearntFromCore boxes.now (has valuation) diamond core result }
{
    let mut clause = Clause::NONE.with(Literal::negation(diamond.name));
    let mut uncovered = core.remove(diamond.literal);
    for fired in boxes
        .iter()
        .copied()
        .filter(|clause| valuation.member(clause.name))
    {
        if uncovered.contains(fired.literal) {
            clause = clause.with(Literal::negation(fired.name));
            uncovered = uncovered.remove(fired.literal);
        }
    }
    clause
}
