// A rule whose reached places are marked.
ghost use Rattle.std.specs.Prelude.{◌≡◌, true};
ghost use Rattle.modal.specs.Rows.{lawful};
ghost use Rattle.naming.specs.Marks.{MarksReached};

use crate::numbers::PLACES;
use modal::row::Row;

/// The rows of a rule with the number that it has or is to have, and the marks of the places that it reaches.
#[derive(Drop)]
pub(crate) struct ReachedRule<'a> {
    pub(crate) number: u8,
    pub(crate) rows: &'a [Row],
    // in fixed memory, since no rule may be refused for want of it
    pub(crate) marks: [bool; PLACES],
    ghost lawful: { lawful rows.now ≡ true },
    ghost reached: { MarksReached rows.now marks },
}
