// Why a text says no bytes.
ghost use Rattle.std.specs.Prelude.{◌≡◌, Some};
ghost use Rattle.hex_text.specs.Words.{text_words};
ghost use Rattle.hex_text.specs.declared.faults.TextFault.TheVariants.{Memory};

use std::alloc::AllocFailed;
use std::error::Error;
use std::fmt;

/// Why a text is not read.
#[derive(Clone, Copy, PartialEq, Eq, Debug)]
pub enum TextFault {
    /// The byte of the text, counted from 0, that cannot stand where it stands, or the end of the text.
    Unexpected(usize),
    /// There was no memory for the bytes.
    Memory,
}

impl fmt::Display for TextFault {
    ghost output = { λ fault. Some (text_words fault) };

    fn fmt<W: fmt::Write>(&self, f: &mut fmt::Formatter<W>) -> fmt::Result {
        match *self {
            TextFault::Unexpected(at) => write!(
                f,
                "byte {at} of the text: bytes are numbers of two hexadecimal digits, parted by blanks and ends of lines"
            ),
            TextFault::Memory => write!(f, "there is no memory for the bytes"),
        }
    }
}

impl Error for TextFault {}

impl<T: Drop> From<AllocFailed<T>> for TextFault {
    ghost from_gives = { λ _ fault. fault ≡ Memory };

    fn from(_e: AllocFailed<T>) -> TextFault {
        TextFault::Memory
    }
}
