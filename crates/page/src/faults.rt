// What was wrong with a page, and in which layer: the text, the rule that it has, or the sheet.
ghost use Rattle.std.specs.Prelude.{◌≡◌, Some};
ghost use Rattle.page.specs.declared.faults.PageFault.TheVariants as fault;
ghost use Rattle.page.specs.Words.{text_words, refusal_words, page_words};
ghost use Rattle.std.specs.Fmt.{DisplaysOnOk};
ghost use Rattle.std.specs.Option.{option_map};

use modal::faults::{Fault, ReadFault};
use sheet::faults::SheetFault;
use std::alloc::AllocFailed;
use std::error::Error;
use std::fmt;

/// Why a text is no page, with the byte of the text at which that is found.
#[derive(Clone, Copy, Debug)]
pub enum TextFault {
    /// A byte that is no digit, blank or end of a line.
    Unexpected(usize),
    /// A number that is too large for its place.
    TooLarge(usize),
    /// A row that ends before its level.
    TooFew(usize),
}

impl fmt::Display for TextFault {
    ghost output = { λ fault. Some (text_words fault) };

    fn fmt<W: fmt::Write>(&self, f: &mut fmt::Formatter<W>) -> fmt::Result {
        match *self {
            TextFault::Unexpected(at) => write!(f, "byte {at}: no digit, blank or end of a line"),
            TextFault::TooLarge(at) => write!(f, "byte {at}: the number is too large"),
            TextFault::TooFew(at) => write!(f, "byte {at}: the row ends before its level"),
        }
    }
}

impl Error for TextFault {}

/// Why a page has no verdict, by the layer that refused it.
#[derive(Clone, Copy, Debug)]
pub enum PageFault {
    Text(TextFault),
    Rule(ReadFault),
    Sheet(SheetFault),
    /// There was no memory for the page.
    Memory,
}

impl fmt::Display for PageFault {
    ghost output = { λ fault. Some (page_words fault) };

    fn fmt<W: fmt::Write>(&self, f: &mut fmt::Formatter<W>) -> fmt::Result {
        match *self {
            PageFault::Text(fault) => write!(f, "the text, {fault}"),
            PageFault::Rule(fault) => refusal(fault, "rule", f),
            PageFault::Sheet(fault) => refusal(fault, "sheet", f),
            PageFault::Memory => write!(f, "there is no memory for the page"),
        }
    }
}

impl Error for PageFault {}

// The number and the detail of a refusal, what was refused, and why.
fn refusal<F: Fault + Copy, W: fmt::Write>(
    fault: F,
    layer: &str,
    f: &mut fmt::Formatter<W>,
) -> fmt::Result
    ensures { DisplaysOnOk W.Write.write_str_gives f.old result (option_map (refusal_words (F.Fault.refusal fault) layer.now) (F.Display.output fault)) f.new }
{
    let number = fault.number();
    let detail = fault.detail();
    write!(f, "{number}, detail {detail}: the {layer}, {fault}")
}

// These are written out, for a clause of `check` names the fault that a `?` makes.
impl From<TextFault> for PageFault {
    ghost from_gives = { λ f r. r ≡ fault.Text f };

    fn from(fault: TextFault) -> PageFault {
        PageFault::Text(fault)
    }
}

impl From<ReadFault> for PageFault {
    ghost from_gives = { λ f r. r ≡ fault.Rule f };

    fn from(fault: ReadFault) -> PageFault {
        PageFault::Rule(fault)
    }
}

impl From<SheetFault> for PageFault {
    ghost from_gives = { λ f r. r ≡ fault.Sheet f };

    fn from(fault: SheetFault) -> PageFault {
        PageFault::Sheet(fault)
    }
}

impl<T: Drop> From<AllocFailed<T>> for PageFault {
    ghost from_gives = { λ _ r. r ≡ fault.Memory };

    fn from(_e: AllocFailed<T>) -> PageFault {
        PageFault::Memory
    }
}
