//! Rules made row by row, by programs that generate them. A writer holds the bytes of its rows; the rule is read from
//! them as often as it is wanted, since a session uses a rule up. The crate stands on `modal`, and promises that the
//! writer holds the bytes of the rows that it was given, and that the rule is what these bytes say
//! (`specs/Writing.antt`).
//!
//! - `Writer::new`: a writer with no row
//! - `row`: appends a row, and answers its number
//! - `rule`, `bytes`: the rule of the rows, and their bytes in place
#![tactic(auto)]

ghost use Rattle.std.specs.Prelude.{◌≡◌, ◌+◌, min, ◌++◌, Ok, Err, IfOk, MatchResult};
ghost use Rattle.modal.specs.Format.{parsed, bytes_of};
ghost use Rattle.modal.specs.Rules.{rows_of};
ghost use Rattle.rule_writer.specs.Writing.{bytes_in, next_number};

use modal::faults::ReadFault;
use modal::row::Row;
use modal::rule::Rule;
use std::alloc::{AllocError, Global};
use std::fmt;

/// The rows so far.
#[derive(Drop)]
pub struct Writer {
    bytes: Vec<u8>,
    rows: u8,
}

impl Writer {
    ghost use Rattle.std.specs.Prelude.{[]};

    /// A writer with no row.
    pub fn new(heap: Global) -> Writer
        ensures bytes { bytes_in result ≡ [] }
        ensures number { next_number result ≡ 0 }
    {
        Writer {
            bytes: Vec::new(heap),
            rows: 0,
        }
    }

    /// Appends a row, and answers its number.
    pub fn row(&mut self, row: Row) -> Result<u8, AllocError>
        ensures number { IfOk result (λ number. number ≡ next_number self.old) }
        ensures next { IfOk result (λ number. next_number self.new ≡ min (number + 1) 255) }
        ensures bytes { IfOk result (λ _. bytes_in self.new ≡ bytes_in self.old ++ bytes_of row) }
    {
        self.bytes.extend_from_slice(row.bytes().as_slice())?;
        let number = self.rows;
        // a rule of more than 64 rows is refused when it is read
        self.rows = number.saturating_add(1);
        Ok(number)
    }

    /// The bytes of the rows, in place.
    pub fn bytes(&self) -> &[u8]
        ensures { result.now ≡ bytes_in self.now }
    {
        &self.bytes
    }

    /// The rule whose last row says the whole.
    pub fn rule(&self) -> Result<Rule, ReadFault>
        ensures { MatchResult result (λ rule. parsed (bytes_in self.now) ≡ Ok (rows_of rule)) (λ fault. parsed (bytes_in self.now) ≡ Err fault) }
    {
        let mut rule = Rule::new();
        rule.read(&self.bytes)?;
        Ok(rule)
    }
}

/// The bytes, two hexadecimal digits each.
impl fmt::Display for Writer {
    fn fmt<W: fmt::Write>(&self, f: &mut fmt::Formatter<W>) -> fmt::Result {
        for byte in &self.bytes {
            write!(f, "{byte:02X}")?;
        }
        Ok(())
    }
}
