// Lists of claims and of signed letters that grow at the front: the rest of a list is lent, so it may be the rest of many.
ghost use Rattle.std.specs.Prelude.{◌↔◌, IsTrue};
ghost use Rattle.lists.specs.Lists.{In};
ghost use Rattle.tableau.specs.Claims.{letters_of};

use crate::claims::{Claim, SignedLetter};

#[derive(Drop)]
pub(crate) enum Claims<'a> {
    Empty,
    More(Claim<'a>, &'a Claims<'a>),
}

#[derive(Drop)]
pub(crate) enum SignedLetters<'a> {
    Empty,
    More(SignedLetter, &'a SignedLetters<'a>),
}

impl SignedLetters<'_> {
    pub(crate) fn contains(&self, letter: SignedLetter) -> bool
        ensures { IsTrue result ↔ In letter (letters_of self.now) }
    {
        match self {
            SignedLetters::Empty => false,
            SignedLetters::More(first, rest) => *first == letter || rest.contains(letter),
        }
    }
}
