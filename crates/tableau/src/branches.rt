// A branch of the tableau: what is asked of one world, and what that comes down to for its successors.
//
// A branch is open if some world of some Kripke model is as it asks.
ghost use Rattle.std.specs.Prelude.{◌≡◌};
ghost use Rattle.tableau.specs.Branches.{DecidesBranch, DecidesAll, Consistent, asks, branch_of};
ghost use Rattle.tableau.specs.Claims.{claims_of, letters_of};

use crate::claims::Step;
use crate::linked::{Claims, SignedLetters};

// What claims on a world came down to: signed letters that are right there, claims on each of its successors, and claims on
// one of them each.
#[derive(Clone, Copy)]
struct Settled<'a> {
    letters: &'a SignedLetters<'a>,
    everywhere: &'a Claims<'a>,
    somewhere: &'a Claims<'a>,
}

// Whether the claims are right at some world of some Kripke model.
#[cycle(branches)]
pub(crate) fn can_be_right(claims: &Claims<'_>) -> bool
    ensures { DecidesBranch (asks (claims_of claims.now)) result }
{
    let nothing = Settled {
        letters: &SignedLetters::Empty,
        everywhere: &Claims::Empty,
        somewhere: &Claims::Empty,
    };
    is_open(claims, nothing)
}

// Whether the branch of these claims on the world, and of what is settled, is open.
#[cycle(branches)]
fn is_open(claims: &Claims<'_>, settled: Settled<'_>) -> bool
    requires { Consistent (letters_of settled.letters.now) }
    ensures { DecidesBranch (branch_of claims.now settled.entry) result }
{
    let Claims::More(claim, rest) = claims else {
        return each_can_be_right(settled.somewhere, settled.everywhere);
    };
    match claim.step() {
        Step::Never => false,
        Step::Always => is_open(rest, settled),
        Step::Letter(letter) => {
            let letters = &SignedLetters::More(letter, settled.letters);
            let more = Settled { letters, ..settled };
            !settled.letters.contains(letter.opposite()) && is_open(rest, more)
        }
        Step::Same(c) => is_open(&Claims::More(c, &*rest), settled),
        Step::Both(c, d) => is_open(&Claims::More(c, &Claims::More(d, &*rest)), settled),
        Step::Either(c, d) => {
            is_open(&Claims::More(c, &*rest), settled) || is_open(&Claims::More(d, &*rest), settled)
        }
        Step::Everywhere(c) => {
            let everywhere = &Claims::More(c, settled.everywhere);
            let more = Settled {
                everywhere,
                ..settled
            };
            is_open(rest, more)
        }
        Step::Somewhere(c) => {
            let somewhere = &Claims::More(c, settled.somewhere);
            let more = Settled {
                somewhere,
                ..settled
            };
            is_open(rest, more)
        }
    }
}

// Whether each of the claims can be right together with all of `everywhere`.
#[cycle(branches)]
fn each_can_be_right(claims: &Claims<'_>, everywhere: &Claims<'_>) -> bool
    ensures { DecidesAll (claims_of everywhere.now) (claims_of claims.now) result }
{
    let Claims::More(claim, rest) = claims else {
        return true;
    };
    can_be_right(&Claims::More(*claim, &*everywhere)) && each_can_be_right(rest, everywhere)
}
