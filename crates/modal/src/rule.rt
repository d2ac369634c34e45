// A rule: 1 to 64 rows, lawful in every value of the type.
ghost use Rattle.std.specs.Prelude.{◌≡◌, ◌<◌, ◌≤◌, ◌++◌, true, length, drop};
ghost use Rattle.fixed_list.specs.Items.{items_of};
ghost use Rattle.modal.specs.Format.{written};
ghost use Rattle.modal.specs.Rows.{lawful};

use crate::faults::{NoRows, ReadFault, WriteFault};
use crate::reader::read_rows;
use crate::row::Row;
use crate::row_list::RowList;

/// A lawful rule. It is no `Copy`: who hands a rule over for good no longer has it.
#[derive(Drop)]
pub struct Rule {
    list: RowList,
    ghost some: { 0 < length (items_of list.rows) },
}

impl Rule {
    ghost use Rattle.std.specs.Prelude.{[], ◌∷◌};
    ghost use Rattle.modal.specs.Rules.{rows_of, Reads, Writes};
    ghost use Rattle.modal.specs.declared.row.Row.TheVariants.{True};

    /// The single row true.
    pub fn new() -> Rule
        ensures { rows_of result ≡ True ∷ [] }
    {
        let mut list = RowList::new();
        list.push(Row::True);
        Rule { list }
    }

    /// The rows, in place.
    pub fn rows(&self) -> &[Row]
        ensures value { result.now ≡ rows_of self.now }
        ensures lawful { lawful (rows_of self.now) ≡ true }
    {
        self.list.rows()
    }

    /// Fills the rule with the rows that the bytes say. A refusal leaves it as it was.
    #[tactic(auto, using(crate::proofs::Writing::read_some, std::proofs::lemmas::Bool::Decides::nat_tests))]
    pub fn read(&mut self, bytes: &[u8]) -> Result<(), ReadFault>
        ensures { Reads bytes.now self.old self.new result }
    {
        if bytes.is_empty() {
            return Err(ReadFault::NoBytes);
        }
        self.list = read_rows(bytes)?;
        Ok(())
    }

    /// Puts the rule's bytes at the start of the buffer, and answers their number.
    #[tactic(auto, using(crate::proofs::Writing::read_back, crate::proofs::Writing::refuses, crate::proofs::Writing::writes))]
    pub fn write(&self, out: &mut [u8]) -> Result<usize, WriteFault>
        ensures { Writes (rows_of self.now) out.old out.new result }
    {
        let rows = self.rows();
        let needed = size(rows);
        if out.len() < needed {
            return Err(WriteFault::TooShort(needed));
        }
        put_all(rows, out);
        Ok(needed)
    }
}

/// The rule of the single row true.
impl Default for Rule {
    ghost use Rattle.std.specs.Prelude.{[], ◌∷◌};
    ghost use Rattle.modal.specs.Rules.{rows_of};
    ghost use Rattle.modal.specs.declared.row.Row.TheVariants.{True};

    ghost is_default = { λ rule. rows_of rule ≡ True ∷ [] };

    fn default() -> Rule {
        Rule::new()
    }
}

/// A rule is used up, and leaves its rows as a list that may be copied.
impl From<Rule> for RowList {
    ghost use Rattle.modal.specs.Rules.{listed, rows_of};

    ghost from_gives = { λ rule list. (listed list ≡ rows_of rule) × (lawful (listed list) ≡ true) };

    fn from(rule: Rule) -> RowList {
        rule.list
    }
}

/// The rule of the rows, if there is a row.
impl TryFrom<RowList> for Rule {
    ghost use Rattle.std.specs.Prelude.{[], MatchResult};
    ghost use Rattle.modal.specs.Rules.{listed, rows_of};

    type Error = NoRows;

    ghost try_from_gives = { λ list made. MatchResult made (λ rule. rows_of rule ≡ listed list) (λ _. listed list ≡ []) };

    fn try_from(list: RowList) -> Result<Rule, NoRows> {
        if list.rows().is_empty() {
            return Err(NoRows);
        }
        Ok(Rule { list })
    }
}

// The number of the rows' bytes.
#[tactic(auto, using(crate::proofs::Writing::written_size))]
fn size(rows: &[Row]) -> usize
    requires { length rows.now ≤ 64 }
    ensures { result ≡ length (written rows.now) }
{
    rows.iter().map(|row| row.bytes().len()).sum()
}

// Writes the rows' bytes to the start of the buffer.
// By recursion: of a buffer that a loop shortens row by row, nothing is known after the loop.
fn put_all(rows: &[Row], out: &mut [u8])
    requires { length (written rows.now) ≤ length out.old }
    ensures { out.new ≡ written rows.now ++ drop (length (written rows.now)) out.old }
{
    if let Some((row, others)) = rows.split_first() {
        let bytes = row.bytes();
        let (front, back) = out.split_at_mut(bytes.len());
        front.copy_from_slice(bytes.as_slice());
        put_all(others, back);
    }
}
