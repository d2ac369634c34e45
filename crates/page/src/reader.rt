// Reading a page, byte by byte.
ghost use Rattle.std.specs.Prelude.{◌≡◌, ◌<◌, if◌then◌else◌, Ok, Err, nat_lt};
ghost use Rattle.page.specs.declared.faults.TextFault.TheVariants.{TooLarge};
ghost use Rattle.page.specs.Pages.{state_of, empty_page, letter_added, number_taken, number_ended, line_ended, line_closed, digit_added, byte_read, read_page, base_of, digit_in, Moves, PageRead};

use crate::faults::{PageFault, TextFault};
use crate::page::{Expect, Page};
use atoms::sets::{ATOMS, AtomSet};
use sheet::row::SheetRow;
use std::alloc::Global;

// The number as a byte.
fn byte_of(number: u64, at: usize) -> Result<u8, TextFault>
    ensures { result ≡ (if nat_lt number 256 then Ok number else Err (TooLarge at)) }
{
    u8::try_from(number).map_err(|_| TextFault::TooLarge(at))
}

// The row with one letter more.
fn with_letter(row: SheetRow, letter: u8) -> SheetRow
    requires { letter < 64 }
    ensures { result ≡ letter_added row letter }
{
    SheetRow {
        letters: row.letters.insert(letter),
        ..row
    }
}

impl Page {
    fn new(heap: Global) -> Page
        ensures { state_of result ≡ empty_page }
    {
        Page {
            expect: Expect::Byte,
            comment: false,
            digits: None,
            bytes: Vec::new(heap),
            sheet: Vec::new(heap),
        }
    }

    // The rule's bytes are in base sixteen, a row's numbers in base ten.
    fn base(&self) -> u32
        ensures { result ≡ base_of (state_of self.now) }
    {
        match self.expect {
            Expect::Byte => 16,
            _ => 10,
        }
    }

    // The value of a digit in the base of the line.
    fn digit(&self, byte: u8) -> Option<u32>
        ensures { result ≡ digit_in byte (base_of (state_of self.now)) }
    {
        char::from(byte).to_digit(self.base())
    }

    // Puts a number where the line wants it.
    fn take_number(&mut self, number: u64, at: usize) -> Result<(), PageFault>
        ensures { Moves (number_taken (state_of self.old) number at) (state_of self.new) result }
    {
        self.digits = None;
        match &mut self.expect {
            Expect::Byte => {
                let byte = byte_of(number, at)?;
                self.bytes.push(byte)?;
            }
            Expect::Parent => self.expect = Expect::Level { parent: number },
            Expect::Level { parent } => {
                let level = byte_of(number, at)?;
                self.expect = Expect::Letter(SheetRow {
                    parent: *parent,
                    level,
                    letters: AtomSet::NONE,
                });
            }
            // in place, so that a letter does not move the row
            Expect::Letter(row) => {
                if number >= u64::from(ATOMS) {
                    return Err(PageFault::from(TextFault::TooLarge(at)));
                }
                *row = with_letter(*row, number as u8);
            }
        }
        Ok(())
    }

    fn end_number(&mut self, at: usize) -> Result<(), PageFault>
        ensures { Moves (number_ended (state_of self.old) at) (state_of self.new) result }
    {
        match self.digits {
            Some(number) => self.take_number(number, at),
            None => Ok(()),
        }
    }

    // A line with a row on it adds the row; the first line with a byte on it ends the rule.
    fn end_line(&mut self, at: usize) -> Result<(), PageFault>
        ensures { Moves (line_ended (state_of self.old) at) (state_of self.new) result }
    {
        self.comment = false;
        match self.expect {
            Expect::Byte if self.bytes.is_empty() => {}
            Expect::Byte | Expect::Parent => self.expect = Expect::Parent,
            Expect::Level { .. } => return Err(PageFault::from(TextFault::TooFew(at))),
            Expect::Letter(row) => {
                self.sheet.push(row)?;
                self.expect = Expect::Parent;
            }
        }
        Ok(())
    }

    // The end of a line ends its last number too. In line: the place for what a call answers is cleared for each byte of a
    // text.
    #[inline(always)]
    fn close_line(&mut self, at: usize) -> Result<(), PageFault>
        ensures { Moves (line_closed (state_of self.old) at) (state_of self.new) result }
    {
        self.end_number(at)?;
        self.end_line(at)
    }

    fn add_digit(&mut self, byte: u8, at: usize) -> Result<(), PageFault>
        ensures { Moves (digit_added (state_of self.old) byte at) (state_of self.new) result }
    {
        let digit = self.digit(byte).ok_or(TextFault::Unexpected(at))?;
        let base = u64::from(self.base());
        let number = self
            .digits
            .unwrap_or(0)
            .checked_mul(base)
            .and_then(|shifted| shifted.checked_add(u64::from(digit)))
            .ok_or(TextFault::TooLarge(at))?;
        self.digits = Some(number);
        Ok(())
    }

    fn read_byte(&mut self, byte: u8, at: usize) -> Result<(), PageFault>
        ensures { Moves (byte_read (state_of self.old) byte at) (state_of self.new) result }
    {
        match byte {
            b'\n' => self.close_line(at),
            _ if self.comment => Ok(()),
            b' ' | b'\t' | b'\r' => self.end_number(at),
            b'#' => {
                self.end_number(at)?;
                self.comment = true;
                Ok(())
            }
            _ => self.add_digit(byte, at),
        }
    }
}

// The rule's bytes and the sheet that the text has on it.
pub(crate) fn read(heap: Global, text: &[u8]) -> Result<Page, PageFault>
    ensures { PageRead (read_page text.now) result }
{
    let mut page = Page::new(heap);
    for (at, byte) in text.iter().enumerate() {
        page.read_byte(*byte, at)?;
    }
    page.close_line(text.len())?;
    Ok(page)
}
