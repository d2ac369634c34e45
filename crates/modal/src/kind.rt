// The kinds of rows, and the byte that stands for each.
ghost use Rattle.std.specs.Prelude.{◌≡◌, ◌<◌, MatchResult, Some, codes};
ghost use Rattle.modal.specs.Format.{body_length};
ghost use Rattle.modal.specs.Kinds.{byte_of};

use std::error::Error;
use std::fmt;

/// What a row is: false, true, a letter, or one of the connectives.
#[derive(Clone, Copy, PartialEq, Eq, Debug)]
pub enum Kind {
    False,
    True,
    Letter,
    Not,
    And,
    Or,
    Box,
    Diamond,
}

/// A byte that stands for no kind.
#[derive(Clone, Copy, PartialEq, Eq, Debug)]
pub struct NoKind;

impl fmt::Display for NoKind {
    ghost output = { λ _. Some (codes "the kind is over 07") };

    fn fmt<W: fmt::Write>(&self, f: &mut fmt::Formatter<W>) -> fmt::Result {
        f.write_str("the kind is over 07")
    }
}

impl Error for NoKind {}

impl TryFrom<u8> for Kind {
    type Error = NoKind;

    ghost try_from_gives = { λ byte r. MatchResult r (λ kind. byte_of kind ≡ byte) (λ _. 7 < byte) };

    fn try_from(byte: u8) -> Result<Kind, NoKind> {
        match byte {
            0 => Ok(Kind::False),
            1 => Ok(Kind::True),
            2 => Ok(Kind::Letter),
            3 => Ok(Kind::Not),
            4 => Ok(Kind::And),
            5 => Ok(Kind::Or),
            6 => Ok(Kind::Box),
            7 => Ok(Kind::Diamond),
            _ => Err(NoKind),
        }
    }
}

impl From<Kind> for u8 {
    ghost from_gives = { λ kind byte. byte ≡ byte_of kind };

    // The kinds stand in the order of their bytes.
    fn from(kind: Kind) -> u8 {
        kind as u8
    }
}

impl Kind {
    /// The number of bytes in the body, which stands behind the kind.
    pub fn body_len(self) -> usize
        ensures { result ≡ body_length (byte_of self) }
    {
        match self {
            Kind::False | Kind::True => 0,
            Kind::Letter | Kind::Not | Kind::Box | Kind::Diamond => 1,
            Kind::And | Kind::Or => 2,
        }
    }
}
