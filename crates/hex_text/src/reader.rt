// Reading a text, byte by byte.
ghost use Rattle.std.specs.Prelude.{◌≡◌, ◌<◌, Ok, IfSome, IfOk, IfErr};
ghost use Rattle.hex_text.specs.Texts.{digit_of, state_of, nothing_read, byte_read, text_of, Moves, Refuses};

use crate::faults::TextFault;
use crate::place::{Place, Reader};
use std::alloc::Global;

// The value of a hexadecimal digit.
fn digit(byte: u8) -> Option<u8>
    ensures value { result ≡ digit_of byte }
    ensures small { IfSome result (λ d. d < 16) }
{
    char::from(byte).to_digit(16).map(|value| value as u8)
}

impl Reader {
    fn new(heap: Global) -> Reader
        ensures { state_of result ≡ nothing_read }
    {
        Reader {
            place: Place::Blank,
            bytes: Vec::new(heap),
        }
    }

    fn read_byte(&mut self, byte: u8, at: usize) -> Result<(), TextFault>
        ensures { Moves (byte_read (state_of self.old) byte at) (state_of self.new) result }
    {
        self.place = match (self.place, byte) {
            (Place::Comment, b'\n') => Place::Blank,
            (Place::Comment, _) => Place::Comment,
            (Place::Digit(high), _) => {
                let low = digit(byte).ok_or(TextFault::Unexpected(at))?;
                self.bytes.push(16 * high + low)?;
                Place::Number
            }
            (_, b' ' | b'\t' | b'\r' | b'\n') => Place::Blank,
            (_, b'#') => Place::Comment,
            (Place::Number, _) => return Err(TextFault::Unexpected(at)),
            (Place::Blank, _) => { Place::Digit(digit(byte).ok_or(TextFault::Unexpected(at))?) }
        };
        Ok(())
    }
}

/// The bytes that the text says.
pub fn read(heap: Global, text: &[u8]) -> Result<Vec<u8>, TextFault>
    ensures bytes { IfOk result (λ bytes. text_of text.now ≡ Ok bytes.items) }
    ensures refused { IfErr result (λ fault. Refuses (text_of text.now) fault) }
{
    let mut reader = Reader::new(heap);
    for (at, byte) in text.iter().enumerate() {
        reader.read_byte(*byte, at)?;
    }
    match reader.place {
        Place::Digit(_) => Err(TextFault::Unexpected(text.len())),
        _ => Ok(reader.bytes),
    }
}
