// Reading rows from bytes, one after the other.
//
// What is read and what is left of the bytes always say together what the whole bytes say (`parse`), so a row more is
// one step of that definition and the loop has nothing else to carry.
ghost use Rattle.std.specs.Prelude.{◌≡◌, ◌<◌, true, [], ◌∷◌, length, MatchResult, slice_index};
ghost use Rattle.fixed_list.specs.Items.{items_of};
ghost use Rattle.modal.specs.Format.{parse, placed};
ghost use Rattle.modal.specs.Rows.{children_earlier, depth_of, row_depths};
ghost use Rattle.modal.specs.Rules.{listed};
ghost use Rattle.modal.specs.Reading.{Pushed, RowDone, rest_of};

use crate::faults::{ReadFault, RowStart};
use crate::row::Row;
use crate::row_list::{MAX_ROWS, RowList};
use fixed_list::ArrayVec;

const DEEPEST: usize = 7;

// The rows that are read, with the depth of each. The depths stand beside the list, since a rule keeps its rows alone.
#[derive(Drop)]
struct Reader {
    list: RowList,
    depths: ArrayVec<u8, MAX_ROWS>,
    ghost known: { items_of depths ≡ row_depths (listed list) },
}

#[tactic(auto, using(crate::proofs::Built::length_depths))]
impl Reader {
    fn new() -> Reader
        ensures { listed result.list ≡ [] }
    {
        Reader {
            list: RowList::new(),
            depths: ArrayVec::new(0),
        }
    }

    fn depth_at(&self, c: u8) -> usize
        requires { c < length (listed self.now.list) }
        ensures value { result ≡ slice_index (row_depths (listed self.now.list)) c }
        ensures bound { result < 256 }
    {
        usize::from(self.depths.as_slice()[usize::from(c)])
    }

    // The depth of a row whose children are in the list.
    fn depth(&self, row: Row) -> usize
        requires { children_earlier (length (listed self.now.list)) row ≡ true }
        ensures { result ≡ depth_of (row_depths (listed self.now.list)) row }
    {
        match row {
            Row::False | Row::True | Row::Letter(_) => 0,
            Row::Not(c) => self.depth_at(c),
            Row::And(c, e) | Row::Or(c, e) => self.depth_at(c).max(self.depth_at(e)),
            Row::Box(c) | Row::Diamond(c) => self.depth_at(c) + 1,
        }
    }

    // The depth of the row, if it may stand next.
    fn place(&self, row: Row, start: RowStart) -> Result<u8, ReadFault>
        ensures { result ≡ placed (row_depths (listed self.now.list)) start row }
    {
        if !row.letter_fits() {
            return Err(ReadFault::LetterTooHigh(start));
        }
        if !row.child_earlier(self.depths.len()) {
            return Err(ReadFault::ChildNotEarlier(start));
        }
        let depth = self.depth(row);
        if depth > DEEPEST {
            return Err(ReadFault::TooDeep(start));
        }
        Ok(depth as u8)
    }

    // One row more, if it may stand next.
    #[tactic(auto, using(crate::proofs::Built::length_depths, crate::proofs::Built::depths_push, crate::proofs::Steps::placed_fits))]
    fn push(&mut self, row: Row, start: RowStart) -> Result<(), ReadFault>
        requires { length (listed self.old.list) < 64 }
        ensures { Pushed (listed self.old.list) row start (listed self.new.list) result }
    {
        let depth = self.place(row, start)?;
        self.list.push(row);
        self.depths.push(depth).unwrap();
        Ok(())
    }

    // Reads the row that begins at `byte` with the byte of its kind, `first`, and hands back the bytes behind the row.
    #[tactic(auto, using(crate::proofs::Built::length_depths, crate::proofs::Steps::step_unread, crate::proofs::Steps::step_done))]
    fn read_row<'a>(
        &mut self,
        byte: usize,
        first: u8,
        bytes: &'a [u8],
    ) -> Result<&'a [u8], ReadFault>
        ensures { MatchResult result (λ rest. RowDone (listed self.old.list) (listed self.new.list) byte first bytes.now rest.now) (λ fault. rest_of (listed self.old.list) byte (first ∷ bytes.now) ≡ Err fault) }
    {
        let count = self.depths.len();
        let start = RowStart {
            row: count as u8,
            byte,
        };
        if count == MAX_ROWS {
            return Err(ReadFault::TooManyRows(start));
        }
        let (row, rest) = Row::split(start, first, bytes)?;
        self.push(row, start)?;
        Ok(rest)
    }
}

// The rows of the bytes.
pub(crate) fn read_rows(bytes: &[u8]) -> Result<RowList, ReadFault>
    ensures { MatchResult result (λ list. parse 64 [] 0 bytes.now ≡ Ok (listed list)) (λ fault. parse 64 [] 0 bytes.now ≡ Err fault) }
{
    let mut reader = Reader::new();
    let mut rest = bytes;
    while let Some((first, body)) = rest.split_first() {
        let byte = bytes.len() - rest.len();
        rest = reader.read_row(byte, *first, body)?;
    }
    Ok(reader.list)
}
