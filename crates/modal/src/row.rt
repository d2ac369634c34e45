// One row of a rule: a formula over the rows before it, by their numbers.
ghost use Rattle.std.specs.Prelude.{◌≡◌, MatchResult, Some};
ghost use Rattle.fixed_list.specs.Items.{items_of};
ghost use Rattle.modal.specs.Rows.{children_earlier, letter_in_range};
ghost use Rattle.modal.specs.Format.{bytes_of};
ghost use Rattle.modal.specs.Kinds.{kind_of};
ghost use Rattle.modal.specs.Reading.{Front, Unread};
ghost use Rattle.modal.specs.Words.{row_words};

use crate::faults::{ReadFault, RowStart};
use crate::kind::Kind;
use fixed_list::ArrayVec;
use std::fmt;

const LAST_LETTER: u8 = 14;

/// A formula, or a connective over the rows with these numbers.
// Numbers and no boxes: the bytes of a rule name earlier rows, and several rows may share one.
#[derive(Clone, Copy, PartialEq, Eq, Debug)]
pub enum Row {
    False,
    True,
    Letter(u8),
    Not(u8),
    And(u8, u8),
    Or(u8, u8),
    Box(u8),
    Diamond(u8),
}

impl fmt::Display for Row {
    ghost output = { λ row. Some (row_words row) };

    fn fmt<W: fmt::Write>(&self, f: &mut fmt::Formatter<W>) -> fmt::Result {
        match *self {
            Row::False => write!(f, "false"),
            Row::True => write!(f, "true"),
            Row::Letter(a) => write!(f, "letter {a}"),
            Row::Not(c) => write!(f, "not row {c}"),
            Row::And(c, e) => write!(f, "row {c} and row {e}"),
            Row::Or(c, e) => write!(f, "row {c} or row {e}"),
            Row::Box(c) => write!(f, "box row {c}"),
            Row::Diamond(c) => write!(f, "diamond row {c}"),
        }
    }
}

impl Row {
    fn kind(self) -> Kind
        ensures { result ≡ kind_of self }
    {
        match self {
            Row::False => Kind::False,
            Row::True => Kind::True,
            Row::Letter(_) => Kind::Letter,
            Row::Not(_) => Kind::Not,
            Row::And(_, _) => Kind::And,
            Row::Or(_, _) => Kind::Or,
            Row::Box(_) => Kind::Box,
            Row::Diamond(_) => Kind::Diamond,
        }
    }

    // The row that begins at `start` with the byte of its kind, `first`, and the bytes after that, and the bytes that are left.
    pub(crate) fn split(start: RowStart, first: u8, bytes: &[u8]) -> Result<(Row, &[u8]), ReadFault>
        ensures { MatchResult result (λ found. Front first bytes.now found.0 found.1.now) (λ fault. Unread first bytes.now start fault) }
    {
        let kind = Kind::try_from(first).map_err(|_| ReadFault::UnknownKind(start))?;
        match (kind, bytes) {
            (Kind::False, rest) => Ok((Row::False, rest)),
            (Kind::True, rest) => Ok((Row::True, rest)),
            (Kind::Letter, [a, rest @ ..]) => Ok((Row::Letter(*a), rest)),
            (Kind::Not, [c, rest @ ..]) => Ok((Row::Not(*c), rest)),
            (Kind::And, [c, e, rest @ ..]) => Ok((Row::And(*c, *e), rest)),
            (Kind::Or, [c, e, rest @ ..]) => Ok((Row::Or(*c, *e), rest)),
            (Kind::Box, [c, rest @ ..]) => Ok((Row::Box(*c), rest)),
            (Kind::Diamond, [c, rest @ ..]) => Ok((Row::Diamond(*c), rest)),
            _ => Err(ReadFault::CutOff(start)),
        }
    }

    // Whether each child is the number of a row before row n.
    pub(crate) fn child_earlier(self, n: usize) -> bool
        ensures { result ≡ children_earlier n self }
    {
        match self {
            Row::False | Row::True | Row::Letter(_) => true,
            Row::Not(c) | Row::Box(c) | Row::Diamond(c) => usize::from(c) < n,
            Row::And(c, e) | Row::Or(c, e) => usize::from(c) < n && usize::from(e) < n,
        }
    }

    pub(crate) fn letter_fits(self) -> bool
        ensures { result ≡ letter_in_range self }
    {
        match self {
            Row::Letter(a) => a <= LAST_LETTER,
            _ => true,
        }
    }

    /// Its bytes: the kind, and the letter or the children.
    pub fn bytes(self) -> ArrayVec<u8, 3>
        ensures { items_of result ≡ bytes_of self }
    {
        let mut bytes = ArrayVec::new(0);
        bytes.push(u8::from(self.kind())).unwrap();
        match self {
            Row::False | Row::True => {}
            Row::Letter(c) | Row::Not(c) | Row::Box(c) | Row::Diamond(c) => {
                bytes.push(c).unwrap();
            }
            Row::And(c, e) | Row::Or(c, e) => {
                bytes.push(c).unwrap();
                bytes.push(e).unwrap();
            }
        }
        bytes
    }
}
