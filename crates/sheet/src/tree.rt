// The tree that a sheet shows: its rows before the first blank.
ghost use Rattle.std.specs.Prelude.{◌≡◌, Ok, Err, MatchResult};
ghost use Rattle.sheet.specs.Sheets.{row_stands, rows_or_none, shown_rows, ShownTree};

use crate::faults::SheetFault;
use crate::row::SheetRow;

// A number and no `Level`, as in a row, where 255 says blank.
const DEEPEST: u8 = 7;

// Whether the row may stand after the rows before it.
fn stands(before: &[SheetRow], row: SheetRow) -> bool
    ensures { result ≡ row_stands before.now row }
{
    if !row.letters.only_letters() {
        return false;
    }
    if before.is_empty() {
        return row.parent == 0 && row.level == 0;
    }
    before.get(row.parent as usize).is_some_and(|above| above.level < DEEPEST
        && row.level == above.level + 1)
}

// The rows, if there is one.
fn rooted(tree: &[SheetRow]) -> Result<&[SheetRow], SheetFault>
    ensures { MatchResult result (λ t. rows_or_none tree.now ≡ Ok t.now) (λ e. rows_or_none tree.now ≡ Err e) }
{
    if tree.is_empty() {
        return Err(SheetFault::NoRoot);
    }
    Ok(tree)
}

/// The rows before the first blank, in place.
pub fn shown(sheet: &[SheetRow]) -> Result<&[SheetRow], SheetFault>
    ensures { MatchResult result (λ t. ShownTree sheet.now t.now) (λ e. shown_rows sheet.now ≡ Err e) }
{
    for (i, row) in sheet.iter().enumerate() {
        let before = &sheet[..i];
        if row.is_blank() {
            return rooted(before);
        }
        if !stands(before, *row) {
            return Err(SheetFault::Unlawful(i as u64));
        }
    }
    rooted(sheet)
}
