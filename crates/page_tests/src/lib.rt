//! Pages that are refused, in the words that a user sees, and a rule whose rows are shared so often that asking them
//! one by one would not end. A crate of its own, so that pages are not proved twice.
#![tactic(auto)]

#[cfg(test)]
mod tests {
    use atoms::sets::AtomSet;
    use page::check::check as verdict;
    use page::drawing::Drawing;
    use sheet::row::SheetRow;
    use std::alloc::{AllocError, Global};
    use std::process::Abort;
    use std::test::Fail;

    // What the check of a page says, in words.
    fn said(heap: Global, text: &[u8]) -> Result<String, AllocError> {
        match verdict(heap, text) {
            Ok(checked) => {
                let met = checked.met;
                format!(in heap; "{met}")
            }
            Err(fault) => format!(in heap; "{fault}"),
        }
    }

    fn says(rt: &impl Abort, heap: Global, text: &[u8], words: &str) -> Result<(), Fail> {
        let found = said(heap, text)?;
        assert_eq!(rt; found.as_str(), words);
        Ok(())
    }

    #[test]
    fn each_layer_refuses(rt: HostRuntime) -> Result<(), Fail> {
        let heap = rt.alloc();
        says(
            &rt,
            heap,
            b"02 00\n0 0 z",
            "the text, byte 10: no digit, blank or end of a line",
        )?;
        says(
            &rt,
            heap,
            b"02 100\n",
            "the text, byte 6: the number is too large",
        )?;
        says(
            &rt,
            heap,
            b"02 00\n0\n",
            "the text, byte 7: the row ends before its level",
        )?;
        says(
            &rt,
            heap,
            b"",
            "1, detail 0: the rule, row 0, at byte 0: there are no bytes",
        )?;
        says(
            &rt,
            heap,
            b"01 07 01",
            "5, detail 1: the rule, row 1, at byte 1: a child is not an earlier row",
        )?;
        says(
            &rt,
            heap,
            b"01\n",
            "9, detail 0: the sheet, it is empty or its first row is blank",
        )?;
        says(
            &rt,
            heap,
            b"01\n0 0\n1 1\n",
            "9, detail 1: the sheet, row 1 is not lawful",
        )
    }

    #[test]
    fn verdicts(rt: HostRuntime) -> Result<(), Fail> {
        let heap = rt.alloc();
        says(&rt, heap, b"02 00 06 00\n0 0\n0 1 0\n", "true")?;
        says(
            &rt,
            heap,
            b"02 00 06 00\n0 0\n0 1 0\n0 1 1 # no letter 0\n",
            "false",
        )?;
        says(&rt, heap, b"02 00 07 00\n0 0", "false")
    }

    fn world(parent: u64, level: u8, letters: AtomSet) -> SheetRow {
        SheetRow {
            parent,
            level,
            letters,
        }
    }

    #[test]
    fn each_world_is_drawn_under_its_parent(rt: HostRuntime) -> Result<(), Fail> {
        let none = AtomSet::NONE;
        let sheet = [
            world(0, 0, none.insert(0).insert(14)),
            world(0, 1, none),
            world(0, 1, none.insert(3)),
            world(1, 2, none.insert(7)),
        ];
        let drawing = Drawing(&sheet);
        let text = format!(in rt.alloc(); "{drawing}")?;
        let lines = "world 0: 0 14\n  world 1: no letters\n    world 3: 7\n  world 2: 3\n";
        assert_eq!(rt; text.as_str(), lines);
        Ok(())
    }

    #[test]
    fn blank_is_blank(rt: HostRuntime) {
        assert!(rt; SheetRow::BLANK.is_blank());
    }

    // A letter, and sixty rows that each join the row before with itself.
    #[test]
    fn shared_rows_end(rt: HostRuntime) -> Result<(), Fail> {
        let heap = rt.alloc();
        let mut text = String::from_str(heap, "02 00")?;
        for row in 0..60u8 {
            text.push_str(format!(in heap; " 04 {row:x} {row:x}")?.as_str())?;
        }
        text.push_str("\n0 0 0\n")?;
        says(&rt, heap, text.as_bytes(), "true")
    }
}
