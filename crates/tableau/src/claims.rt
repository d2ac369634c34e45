// Claims on a world, and what a claim comes down to by its outermost connective.
ghost use Rattle.std.specs.Prelude.{◌≡◌, true, slice_index_or};
ghost use Rattle.modal.specs.Rows.{lawful, says};
ghost use Rattle.modal.specs.Rules.{rows_of};
ghost use Rattle.modal.specs.declared.row.Row.TheVariants.{False};
ghost use Rattle.tableau.specs.Claims.{ComesTo, claimed, opposite, plainly, step_of};

use modal::row::Row;
use modal::rule::Rule;

// What a row of a rule says, or with minus that it does not.
#[derive(Clone, Copy)]
pub(crate) struct Claim<'a> {
    rule: &'a Rule,
    row: u8,
    plus: bool,
}

// A letter that is true, or with minus false.
#[derive(Clone, Copy, PartialEq, Eq)]
pub(crate) struct SignedLetter {
    pub(crate) letter: u8,
    pub(crate) plus: bool,
}

impl SignedLetter {
    pub(crate) fn opposite(self) -> SignedLetter
        ensures { result ≡ opposite self }
    {
        SignedLetter {
            letter: self.letter,
            plus: !self.plus,
        }
    }
}

// What a claim comes down to at a world: claims on the world itself, on each of its successors, or on one of them.
#[derive(Clone, Copy)]
pub(crate) enum Step<'a> {
    Never,
    Always,
    Letter(SignedLetter),
    Same(Claim<'a>),
    Both(Claim<'a>, Claim<'a>),
    Either(Claim<'a>, Claim<'a>),
    Everywhere(Claim<'a>),
    Somewhere(Claim<'a>),
}

impl<'a> Claim<'a> {
    // What the rule says.
    pub(crate) fn of(rule: &'a Rule) -> Claim<'a>
        ensures { claimed result ≡ plainly (says (rows_of rule.now)) }
    {
        let last = rule.rows().len() - 1;
        Claim {
            rule,
            row: last as u8,
            plus: true,
        }
    }

    // A number past the last row is that of a row false, as where formulas are read.
    fn own_row(&self) -> Row
        ensures value { result ≡ slice_index_or (rows_of self.now.rule.now) self.now.row False }
        ensures lawful { lawful (rows_of self.now.rule.now) ≡ true }
    {
        let rows = self.rule.rows();
        rows.get(usize::from(self.row))
            .copied()
            .unwrap_or(Row::False)
    }

    // The claim on another row of the rule.
    fn on(&self, row: u8, plus: bool) -> Claim<'a>
        ensures { result ≡ record self.now { row = row; plus = plus } }
    {
        Claim { row, plus, ..*self }
    }

    // The step of the claim, were this its row: under minus, and and or change places, and so do box and diamond.
    fn step_on(&self, row: Row) -> Step<'a>
        ensures { result ≡ step_of self.now row }
    {
        let plus = self.plus;
        match (row, plus) {
            (Row::False, true) | (Row::True, false) => Step::Never,
            (Row::False, false) | (Row::True, true) => Step::Always,
            (Row::Letter(letter), _) => Step::Letter(SignedLetter { letter, plus }),
            (Row::Not(c), _) => Step::Same(self.on(c, !plus)),
            (Row::And(c, e), true) | (Row::Or(c, e), false) => {
                Step::Both(self.on(c, plus), self.on(e, plus))
            }
            (Row::And(c, e), false) | (Row::Or(c, e), true) => {
                Step::Either(self.on(c, plus), self.on(e, plus))
            }
            (Row::Box(c), true) | (Row::Diamond(c), false) => Step::Everywhere(self.on(c, plus)),
            (Row::Box(c), false) | (Row::Diamond(c), true) => Step::Somewhere(self.on(c, plus)),
        }
    }

    // What the claim comes down to.
    pub(crate) fn step(&self) -> Step<'a>
        ensures { ComesTo (claimed self.now) result }
    {
        self.step_on(self.own_row())
    }
}
