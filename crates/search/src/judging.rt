ghost use Rattle.std.specs.Prelude.{ℕ, MatchOption};
ghost use Rattle.search.specs.Judging.{Judged, FirstJudged, Sole};

use crate::status::Status;
use atoms::assumptions::Assumptions;
use atoms::clauses::{Clause, Entry, Literal};
use atoms::sets::AtomSet;

// The atom of a set that has just one.
fn sole(set: AtomSet) -> Option<u8>
    ensures { MatchOption result ((a : ℕ) → Sole set a → ⊥) (λ a. Sole set a) }
{
    let atom = set.lowest()?;
    set.remove(atom).is_empty().then_some(atom)
}

// What the trail makes of a clause.
fn judge(clause: Clause, trail: Assumptions) -> Status
    ensures { Judged trail clause result }
{
    let plain_true = clause.plain.intersection(trail.within);
    let negated_true = clause.negated.intersection(trail.without);
    if !plain_true.union(negated_true).is_empty() {
        return Status::Open;
    }
    let undecided = trail.undecided();
    let plain = clause.plain.intersection(undecided);
    let negated = clause.negated.intersection(undecided);
    // Two arms for the two signs: one for both would go over a pair of a set and a sign, and the other arms would return.
    match (plain.is_empty(), negated.is_empty()) {
        (true, true) => Status::Conflict,
        (false, true) => sole(plain).map_or(
            Status::Open,
            |atom| Status::Forced(Literal::positive(atom)),
        ),
        (true, false) => sole(negated).map_or(
            Status::Open,
            |atom| Status::Forced(Literal::negation(atom)),
        ),
        (false, false) => Status::Open,
    }
}

// What the trail makes of the first entry whose clause is not open.
pub(crate) fn examine(entries: &[Entry], trail: Assumptions) -> Status
    ensures { FirstJudged trail entries.now result }
{
    // A match: for a `find_map` the two statuses that are not open would need an enum of their own in an Option, and with
    // `map` and `find` each status would be compared with one that is named again at the end.
    for entry in entries {
        match judge(entry.clause, trail) {
            Status::Open => {}
            status => return status,
        }
    }
    Status::Open
}
