// At most 64 rows, each lawful after those before it.
ghost use Rattle.std.specs.Prelude.{◌≡◌, true, []};
ghost use Rattle.fixed_list.specs.Items.{items_of};
ghost use Rattle.modal.specs.Rows.{all_fit};

use crate::row::Row;
use fixed_list::ArrayVec;

pub(crate) const MAX_ROWS: usize = 64;

/// Rows that may stand at the front of a rule.
// In fixed memory: a rule has at most 64 rows, and none is refused for want of memory.
#[derive(Clone, Copy)]
pub struct RowList {
    rows: ArrayVec<Row, MAX_ROWS>,
    ghost fit: { all_fit [] (items_of rows) ≡ true },
}

impl RowList {
    ghost use Rattle.std.specs.Prelude.{◌<◌, ◌∷◌, ◌++◌, length};
    ghost use Rattle.modal.specs.Rows.{row_depths, row_fits};
    ghost use Rattle.modal.specs.Rules.{listed};

    pub(crate) fn new() -> RowList
        ensures { listed result ≡ [] }
    {
        RowList {
            rows: ArrayVec::new(Row::True),
        }
    }

    /// The rows, in place.
    pub fn rows(&self) -> &[Row]
        ensures { result.now ≡ listed self.now }
    {
        self.rows.as_slice()
    }

    // One row more, which may stand next.
    #[tactic(auto, using(crate::proofs::Built::all_fit_push))]
    pub(crate) fn push(&mut self, row: Row)
        requires room { length (listed self.old) < 64 }
        requires fits { row_fits (row_depths (listed self.old)) row ≡ true }
        ensures { listed self.new ≡ listed self.old ++ row ∷ [] }
    {
        self.rows.push(row).unwrap();
    }
}
