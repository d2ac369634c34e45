// The clauses "not n, or .." of a name n.
ghost use Rattle.std.specs.Prelude.{◌≡◌, [], ◌∷◌};
ghost use Rattle.atoms.specs.Clauses.{clause_from, negation};

use atoms::clauses::{Clause, Literal};

// The clause "not n, or x".
// Beside `implies_either`: one function over a slice would go over it backwards, for one literal or two.
pub(crate) fn implies(n: u8, x: Literal) -> Clause
    ensures { result ≡ clause_from (negation n ∷ x ∷ []) }
{
    Clause::NONE.with(x).with(Literal::negation(n))
}

// The clause "not n, or x, or y".
pub(crate) fn implies_either(n: u8, x: Literal, y: Literal) -> Clause
    ensures { result ≡ clause_from (negation n ∷ x ∷ y ∷ []) }
{
    Clause::NONE.with(y).with(x).with(Literal::negation(n))
}
