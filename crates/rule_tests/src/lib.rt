//! Rules read from bytes, at the edges of what is lawful. A crate of its own, so that the rules are not proved twice.
#![tactic(auto)]

#[cfg(test)]
mod tests {
    use modal::faults::{Fault, ReadFault, RowStart, WriteFault};
    use modal::row_list::RowList;
    use modal::rule::Rule;
    use std::test::Fail;

    // What reading the bytes answers: the number and the detail of the refusal, or the number of rows.
    fn read(bytes: &[u8]) -> Result<usize, (u8, u64)> {
        let mut rule = Rule::new();
        rule.read(bytes)
            .map_err(|fault| (fault.number(), fault.detail()))?;
        Ok(rule.rows().len())
    }

    // A letter under eight boxes, each on the row before.
    const BOXES: [u8; 18] = [2, 0, 6, 0, 6, 1, 6, 2, 6, 3, 6, 4, 6, 5, 6, 6, 6, 7];

    #[test]
    fn children_are_earlier(rt: HostRuntime) {
        assert_eq!(rt; read(&[7, 0]), Err((5, 0)));
        assert_eq!(rt; read(&[1, 7, 0]), Ok(2));
        let mut rule = Rule::new();
        let fault = rule.read(&[2, 0, 7, 1]);
        let at = RowStart { row: 1, byte: 2 };
        assert_eq!(rt; fault, Err(ReadFault::ChildNotEarlier(at)));
    }

    #[test]
    fn letters_end_at_14(rt: HostRuntime) {
        assert_eq!(rt; read(&[2, 0x0e]), Ok(1));
        assert_eq!(rt; read(&[2, 0x0f]), Err((6, 0)));
    }

    #[test]
    fn depth_ends_at_7(rt: HostRuntime) {
        let bytes = BOXES;
        assert_eq!(rt; read(&bytes[0..16]), Ok(8));
        assert_eq!(rt; read(&bytes), Err((7, 8)));
    }

    #[test]
    fn rows_end_at_64(rt: HostRuntime) {
        let bytes = [1; 65];
        assert_eq!(rt; read(&bytes[0..64]), Ok(64));
        assert_eq!(rt; read(&bytes), Err((4, 64)));
    }

    #[test]
    fn other_refusals(rt: HostRuntime) {
        assert_eq!(rt; read(&[]), Err((1, 0)));
        assert_eq!(rt; read(&[1, 8]), Err((2, 1)));
        assert_eq!(rt; read(&[1, 4, 0]), Err((3, 1)));
    }

    #[test]
    fn rows_are_a_rule_again(rt: HostRuntime) -> Result<(), Fail> {
        let mut rule = Rule::default();
        assert_eq!(rt; rule.rows().len(), 1);
        rule.read(&[2, 0, 6, 0])?;
        let list = RowList::from(rule);
        let again = Rule::try_from(list)?;
        assert_eq!(rt; again.rows(), list.rows());
        Ok(())
    }

    #[test]
    fn writing_leaves_the_rest(rt: HostRuntime) -> Result<(), Fail> {
        let mut rule = Rule::new();
        rule.read(&[2, 0, 6, 0])?;
        let mut out = [9; 6];
        assert_eq!(rt; rule.write(&mut out)?, 4);
        assert_eq!(rt; out, [2, 0, 6, 0, 9, 9]);
        let mut short = [9; 3];
        let fault = WriteFault::TooShort(4);
        assert_eq!(rt; rule.write(&mut short), Err(fault));
        assert_eq!(rt; (fault.number(), fault.detail()), (10, 4));
        assert_eq!(rt; short, [9; 3]);
        Ok(())
    }
}
