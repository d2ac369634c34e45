//! Whole inputs and the lines that the console prints of them, and the text form of bytes. A crate of its own, so that
//! the console is not proved twice.
#![tactic(auto)]

#[cfg(test)]
mod tests {
    use console::lines::lines;
    use hex_text::faults::TextFault;
    use hex_text::reader::read;
    use std::alloc::Global;
    use std::process::Abort;
    use std::test::Fail;

    // What is printed of an input.
    fn printed(heap: Global, input: &[u8]) -> Result<String, Fail> {
        let mut text = String::new(heap);
        for line in lines(heap, input)? {
            writeln!(text, "{line}")?;
        }
        Ok(text)
    }

    fn says(rt: &impl Abort, heap: Global, input: &[u8], expected: &str) -> Result<(), Fail> {
        assert_eq!(rt; printed(heap, input)?.as_str(), expected);
        Ok(())
    }

    #[test]
    fn the_example(rt: HostRuntime) -> Result<(), Fail> {
        let heap = rt.alloc();
        let input = [
            2, 0, 6, 0, 8, 2, 0, 3, 0, 7, 1, 8, 9, 3, 0, 9, 1, 0, 9, 4, 0, 10,
        ];
        says(&rt, heap, &input, "A 0\nA 1\nC 3\nO\nR 8 18 2\nF\n")
    }

    #[test]
    fn short_inputs(rt: HostRuntime) -> Result<(), Fail> {
        let heap = rt.alloc();
        says(&rt, heap, &[], "")?;
        says(&rt, heap, &[10, 9, 0, 0], "F\nO\n")?;
        // a kind over 10 ends the run, also behind rows
        says(&rt, heap, &[2, 0, 8, 11, 10], "A 0\nR 2 3 0\n")?;
        says(&rt, heap, &[2, 0, 255], "R 2 2 0\n")?;
        // and so does a cut body: of a row, and of a question
        says(&rt, heap, &[10, 2], "F\nR 3 1 0\n")?;
        says(&rt, heap, &[2, 0, 4, 0], "R 3 2 0\n")?;
        says(&rt, heap, &[9, 0], "R 3 0 0\n")?;
        says(&rt, heap, &[2, 0, 9, 1], "R 3 2 0\n")?;
        // rows that are not added
        says(&rt, heap, &[2, 0], "R 11 2 0\n")?;
        says(&rt, heap, &[2, 0, 8, 2, 0, 3, 0], "A 0\nR 11 7 0\n")?;
        // the body of a question behind rows is no command
        says(&rt, heap, &[2, 0, 9, 8, 8, 2, 0, 8], "R 11 2 0\nA 0\n")?;
        says(&rt, heap, &[2, 0, 10, 8], "R 11 2 0\nR 1 3 0\n")?;
        // a refused rule is dropped: no row of it is in the next
        says(&rt, heap, &[2, 0, 3, 1, 8, 3, 0, 8], "R 5 2 1\nR 5 5 0\n")
    }

    // Letter 0, and rows that each join the row before with it: a name for each row, and one for the handle.
    fn joined(input: &mut Vec<u8>, count: u8) -> Result<(), Fail> {
        input.extend_from_slice(&[2, 0])?;
        for row in 0..count {
            input.extend_from_slice(&[4, row, 0])?;
        }
        Ok(input.push(8)?)
    }

    // A rule with 65 rows, and one whose last row is deeper than 7.
    fn too_large(input: &mut Vec<u8>) -> Result<(), Fail> {
        for _ in 0..65u8 {
            input.push(0)?;
        }
        input.extend_from_slice(&[8, 2, 0])?;
        for row in 0..8u8 {
            input.extend_from_slice(&[6, row])?;
        }
        Ok(input.push(8)?)
    }

    // Diamond false, and box r or box not r for eight letters r, a rule each: a clause is learnt for each choice, and there
    // are more than 128.
    fn eight_choices(input: &mut Vec<u8>) -> Result<(), Fail> {
        input.extend_from_slice(&[0, 7, 0, 8])?;
        for r in 0..8u8 {
            input.extend_from_slice(&[2, r, 6, 0, 3, 0, 6, 2, 5, 1, 3, 8])?;
        }
        Ok(())
    }

    #[test]
    fn every_refusal_that_one_input_can_meet(rt: HostRuntime) -> Result<(), Fail> {
        let heap = rt.alloc();
        let mut input = vec![in heap; 8]?;
        too_large(&mut input)?;
        // a child that is not earlier, and a letter too high
        input.extend_from_slice(&[2, 0, 3, 1, 8, 2, 15, 8])?;
        // no rule is held yet
        input.extend_from_slice(&[9, 5, 0])?;
        // a question behind rows, and forgetting
        input.extend_from_slice(&[2, 0, 9, 1, 0, 2, 0, 10])?;
        joined(&mut input, 48)?;
        eight_choices(&mut input)?;
        input.extend_from_slice(&[9, 255, 1])?;
        // seven rules more, and one too many
        for r in 0..8u8 {
            input.extend_from_slice(&[2, r, 8])?;
        }
        // a cut question behind a row
        input.extend_from_slice(&[10, 2, 0, 9, 1])?;
        says(
            &rt,
            heap,
            &input,
            "R 1 0 0
R 4 65 64
R 7 83 8
R 5 88 1
R 6 91 0
R 8 94 0
R 11 99 0
R 11 104 0
R 21 251 0
A 0
A 1
A 2
A 3
A 4
A 5
A 6
A 7
A 8
R 22 352 0
A 9
A 10
A 11
A 12
A 13
A 14
A 15
R 20 378 0
F
R 3 382 0
",
        )
    }

    #[test]
    fn long_inputs(rt: HostRuntime) -> Result<(), Fail> {
        let heap = rt.alloc();
        let mut input = vec![in heap; 0; 65_536]?;
        says(&rt, heap, &input, "R 11 65536 0\n")?;
        input.push(11)?;
        says(&rt, heap, &input, "R 12 65536 0\n")?;
        input.push(8)?;
        says(&rt, heap, &input, "R 12 65536 0\n")
    }

    // The bytes that a text says are these.
    fn means(rt: &impl Abort, heap: Global, text: &[u8], bytes: &[u8]) -> Result<(), Fail> {
        assert_eq!(rt; read(heap, text)?.as_slice(), bytes);
        Ok(())
    }

    #[test]
    fn texts(rt: HostRuntime) -> Result<(), Fail> {
        let heap = rt.alloc();
        means(&rt, heap, b"", &[])?;
        means(&rt, heap, b"# nothing", &[])?;
        means(
            &rt,
            heap,
            b"02 00\t0f\r\n Fe#3\n# 4 x\n\n9a",
            &[2, 0, 15, 254, 154],
        )
    }

    // The text is refused at the byte.
    fn refused(rt: &impl Abort, heap: Global, text: &[u8], at: usize) -> Result<(), Fail> {
        let fault = read(heap, text).map(|_| ());
        assert_eq!(rt; fault, Err(TextFault::Unexpected(at)));
        Ok(())
    }

    #[test]
    fn texts_that_are_none(rt: HostRuntime) -> Result<(), Fail> {
        let heap = rt.alloc();
        refused(&rt, heap, b"02 0", 4)?;
        refused(&rt, heap, b"02 0 ", 4)?;
        refused(&rt, heap, b"0200", 2)?;
        refused(&rt, heap, b"02 g0", 3)?;
        refused(&rt, heap, b"02 0#", 4)?;
        let message = format!(in heap; "{}", TextFault::Unexpected(4))?;
        assert_eq!(rt;
            message.as_str().split_once(':').map(|parts| parts.0),
            Some("byte 4 of the text")
        );
        Ok(())
    }
}
