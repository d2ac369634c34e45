//! Questions to whole sessions, over the oracle that searches and the one that counts. A crate of its own, so that the
//! session is not proved twice.
#![tactic(auto)]

#[cfg(test)]
mod tests {
    use atoms::levels::Level;
    use atoms::sets::AtomSet;
    use clausal::faults::AddFault;
    use modal::faults::{Fault, WriteFault};
    use modal::rule::Rule;
    use oracle::Oracle;
    use plain::Plain;
    use search::Searcher;
    use session::faults::{QuestionFault, RuleFault};
    use session::runs::{Call, Reply, run};
    use session::session::Session;
    use session::verdict::Verdict;
    use sheet::row::SheetRow;
    use sheet::truth::truth;
    use std::alloc::Global;
    use std::process::Abort;
    use std::test::Fail;

    const P: [u8; 2] = [2, 0];

    const NOT_P: [u8; 4] = [2, 0, 3, 0];

    // diamond p and diamond not p
    const TWO_PARTS: [u8; 11] = [2, 0, 7, 0, 3, 0, 7, 2, 4, 1, 3];

    // box (not p or q), box p and diamond not q
    const NO_PART: [u8; 23] = [
        2, 0, 2, 1, 3, 0, 5, 2, 1, 6, 3, 6, 0, 3, 1, 7, 6, 4, 4, 5, 4, 8, 7,
    ];

    fn rule(bytes: &[u8]) -> Result<Rule, Fail> {
        let mut rule = Rule::new();
        rule.read(bytes)?;
        Ok(rule)
    }

    // What a session with just the rule says of it.
    fn verdict<O: Oracle + Drop>(
        oracle: O,
        bytes: &[u8],
    ) -> Result<Result<Verdict, QuestionFault>, Fail> {
        let mut session = Session::new(oracle);
        session.add(rule(bytes)?)?;
        Ok(session.question(1, &mut []))
    }

    fn says(rt: &impl Abort, bytes: &[u8], expected: Verdict) -> Result<(), Fail> {
        assert_eq!(rt; verdict(Searcher::new(), bytes)?, Ok(expected));
        assert_eq!(rt; verdict(Plain::new(), bytes)?, Ok(expected));
        Ok(())
    }

    #[test]
    fn verdicts(rt: HostRuntime) -> Result<(), Fail> {
        assert_eq!(rt;
            Session::new(Searcher::new()).question(0, &mut []),
            Ok(Verdict::Open(1))
        );
        says(&rt, &P, Verdict::Open(1))?;
        // box false, and with it diamond true
        says(&rt, &[0, 6, 0], Verdict::Open(1))?;
        says(&rt, &[0, 6, 0, 1, 7, 2, 4, 1, 3], Verdict::Closed(1))?;
        says(&rt, &TWO_PARTS, Verdict::Open(3))?;
        says(&rt, &NO_PART, Verdict::Closed(1))
    }

    const fn world(parent: u64, level: u8, letters: u64) -> SheetRow {
        SheetRow {
            parent,
            level,
            letters: AtomSet { bits: letters },
        }
    }

    #[test]
    fn an_open_question_is_drawn_if_it_fits(rt: HostRuntime) -> Result<(), Fail> {
        let mut session = Session::new(Searcher::new());
        session.add(rule(&TWO_PARTS)?)?;
        let mut sheet = [world(5, 5, 5); 4];
        assert_eq!(rt; session.question(1, &mut sheet), Ok(Verdict::Open(3)));
        let drawn = [
            world(0, 0, 0),
            world(0, 1, 1),
            world(0, 1, 0),
            SheetRow::BLANK,
        ];
        assert_eq!(rt; sheet, drawn);
        assert_eq!(rt; truth(&sheet, &rule(&TWO_PARTS)?)?, true);
        let mut short = [world(5, 5, 5); 2];
        assert_eq!(rt; session.question(1, &mut short), Ok(Verdict::Open(3)));
        assert_eq!(rt; short, [SheetRow::BLANK; 2]);
        Ok(())
    }

    #[test]
    fn refusals_change_nothing(rt: HostRuntime) -> Result<(), Fail> {
        let mut session = Session::new(Plain::new());
        assert_eq!(rt; session.add(rule(&P)?), Ok(0));
        assert_eq!(rt; session.add(rule(&NOT_P)?), Ok(1));
        let mut sheet = [world(5, 5, 5)];
        let fault = QuestionFault::UnknownRule(2);
        assert_eq!(rt; session.question(0b1100, &mut sheet), Err(fault));
        assert_eq!(rt; (fault.number(), fault.detail()), (8, 2));
        assert_eq!(rt; sheet, [world(5, 5, 5)]);
        assert_eq!(rt;
            session.question(0b11, &mut sheet),
            Ok(Verdict::Closed(0b11))
        );
        assert_eq!(rt; sheet, [SheetRow::BLANK]);
        assert_eq!(rt; session.question(0b10, &mut sheet), Ok(Verdict::Open(1)));
        Ok(())
    }

    #[test]
    fn rules_are_written(rt: HostRuntime) -> Result<(), Fail> {
        let mut session = Session::new(Searcher::new());
        session.add(rule(&P)?)?;
        session.add(rule(&NOT_P)?)?;
        let mut buffer = [9; 5];
        assert_eq!(rt; session.write(1, &mut buffer), Ok(4));
        assert_eq!(rt; buffer, [2, 0, 3, 0, 9]);
        // 8 is tried before 10
        assert_eq!(rt; session.write(2, &mut []), Err(RuleFault::UnknownRule(2)));
        let short = RuleFault::NotWritten(WriteFault::TooShort(4));
        assert_eq!(rt; session.write(1, &mut [9; 3]), Err(short));
        assert_eq!(rt; (short.number(), short.detail()), (10, 4));
        Ok(())
    }

    // A letter, and rows that are each the row before and the letter: a name for each, and one for the handle.
    fn nested_ands(heap: Global, count: u8) -> Result<Rule, Fail> {
        let mut bytes = vec![in heap; 2, 0]?;
        for row in 0..count {
            bytes.extend_from_slice(&[4, row, 0])?;
        }
        rule(bytes.as_slice())
    }

    #[test]
    fn rules_and_names_are_limited(rt: HostRuntime) -> Result<(), Fail> {
        let heap = rt.alloc();
        let mut session = Session::new(Searcher::new());
        for number in 0..16u8 {
            assert_eq!(rt; session.add(rule(&P)?), Ok(number));
        }
        assert_eq!(rt;
            session.add(nested_ands(heap, 48)?),
            Err(AddFault::TooManyRules)
        );
        assert_eq!(rt; session.question(0xffff, &mut []), Ok(Verdict::Open(1)));
        let mut session = Session::new(Searcher::new());
        assert_eq!(rt;
            session.add(nested_ands(heap, 48)?),
            Err(AddFault::TooManyNames(0))
        );
        assert_eq!(rt; session.add(nested_ands(heap, 47)?), Ok(0));
        assert_eq!(rt; session.question(1, &mut []), Ok(Verdict::Open(1)));
        Ok(())
    }

    // Box r or box not r for eight letters r, and diamond false: the diamond's part closes under each of the 256 ways to
    // choose, and each time the world learns one clause.
    fn eight_choices(heap: Global) -> Result<Rule, Fail> {
        let mut bytes: Vec<u8> = Vec::new(heap);
        for r in 0..8u8 {
            let row = 5 * r;
            bytes.extend_from_slice(&[2, r, 6, row, 3, row, 6, row + 2, 5, row + 1, row + 3])?;
        }
        // rows 40 and 41, then the ands
        bytes.extend_from_slice(&[0, 7, 40, 4, 41, 4])?;
        for r in 1..8u8 {
            bytes.extend_from_slice(&[4, 41 + r, 5 * r + 4])?;
        }
        rule(bytes.as_slice())
    }

    #[test]
    fn a_level_is_full(rt: HostRuntime) -> Result<(), Fail> {
        let mut session = Session::new(Searcher::new());
        session.add(eight_choices(rt.alloc())?)?;
        let fault = QuestionFault::LevelFull(Level::ROOT);
        let mut sheet = [world(5, 5, 5); 3];
        assert_eq!(rt; session.question(1, &mut sheet), Err(fault));
        assert_eq!(rt; (fault.number(), fault.detail()), (22, 0));
        assert_eq!(rt; sheet, [SheetRow::BLANK; 3]);
        // the level stays full, and is filled again once all is forgotten
        assert_eq!(rt; session.question(1, &mut sheet), Err(fault));
        session.forget();
        assert_eq!(rt; session.question(1, &mut sheet), Err(fault));
        // what was learnt is about parts: the question for no rule is still open
        assert_eq!(rt; session.question(0, &mut sheet), Ok(Verdict::Open(1)));
        Ok(())
    }

    #[test]
    fn a_list_of_calls_has_its_replies(rt: HostRuntime) -> Result<(), Fail> {
        let heap = rt.alloc();
        let mut calls = Vec::new(heap);
        calls.push(Call::Add(rule(&P)?))?;
        calls.push(Call::Add(rule(&NOT_P)?))?;
        calls.push(Call::Question(0b11))?;
        calls.push(Call::Forget)?;
        calls.push(Call::Question(0b100))?;
        let replies = run(Searcher::new(), calls, heap)?;
        let expected = [
            Reply::Added(Ok(0)),
            Reply::Added(Ok(1)),
            Reply::Answered(Ok(Verdict::Closed(0b11))),
            Reply::Forgotten,
            Reply::Answered(Err(QuestionFault::UnknownRule(2))),
        ];
        assert_eq!(rt; replies.as_slice(), expected.as_slice());
        Ok(())
    }
}
