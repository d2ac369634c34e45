// The question that the crate answers, put as a first branch.
ghost use Rattle.std.specs.Prelude.{◌≡◌, map};
ghost use Rattle.modal.specs.Rules.{rows_of};
ghost use Rattle.tableau.specs.Branches.{DecidesBranch, all_said, asks};
ghost use Rattle.tableau.specs.Claims.{claims_of};
ghost use Rattle.tableau.specs.Deciding.{Decides};

use crate::branches::can_be_right;
use crate::claims::Claim;
use crate::linked::Claims;
use modal::rule::Rule;

/// Whether some world of some Kripke model meets all the rules.
pub fn satisfiable(rules: &[Rule]) -> bool
    ensures { Decides (map rows_of rules.now) result }
{
    can_be_met(rules, &Claims::Empty)
}

// Whether some world of some Kripke model meets all the rules and is as the claims say.
// By recursion: the list of claims grows by a claim that stands before it and borrows it.
fn can_be_met(rules: &[Rule], claims: &Claims<'_>) -> bool
    ensures { DecidesBranch (asks (all_said (map rows_of rules.now) (claims_of claims.now))) result }
{
    match rules.split_first() {
        Some((rule, others)) => can_be_met(others, &Claims::More(Claim::of(rule), &*claims)),
        None => can_be_right(claims),
    }
}
