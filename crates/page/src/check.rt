// The check of a page: its rule read from its bytes, its sheet held to the rule.
ghost use Rattle.page.specs.Verdicts.{Checks};

use crate::faults::PageFault;
use crate::page::Page;
use crate::reader::read;
use modal::rule::Rule;
use sheet::row::SheetRow;
use sheet::truth::truth;
use std::alloc::Global;

/// What was checked, with the verdict.
#[derive(Drop)]
pub struct Checked {
    pub rule: Rule,
    pub sheet: Vec<SheetRow>,
    /// Whether the root of the sheet meets the rule.
    pub met: bool,
}

/// Whether the root of the sheet on the page meets the rule on the page, with both.
pub fn check(heap: Global, text: &[u8]) -> Result<Checked, PageFault>
    ensures { Checks text.now result }
{
    let Page { bytes, sheet, .. } = read(heap, text)?;
    let mut rule = Rule::new();
    rule.read(&bytes)?;
    let met = truth(&sheet, &rule)?;
    Ok(Checked { rule, sheet, met })
}
