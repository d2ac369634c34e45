//! Rules taken in at the edges of a table, and a clausal form written out. A crate of its own, so that taking in a rule
//! is not proved twice.
#![tactic(auto)]

#[cfg(test)]
mod tests {
    use atoms::clauses::{Clause, Literal};
    use atoms::levels::Level;
    use atoms::sets::AtomSet;
    use clausal::faults::AddFault;
    use clausal::modal_clauses::ModalClause;
    use modal::faults::Fault;
    use modal::rule::Rule;
    use naming::table::{Added, Table};
    use std::alloc::Global;
    use std::test::Fail;

    // The letter 0.
    const LETTER: [u8; 2] = [2, 0];

    fn rule(bytes: &[u8]) -> Result<Rule, Fail> {
        let mut rule = Rule::new();
        rule.read(bytes)?;
        Ok(rule)
    }

    // A letter, and rows that each join the row before with the letter: a name for each, and one for the handle.
    fn joined(heap: Global, count: u8) -> Result<Rule, Fail> {
        let mut bytes = vec![in heap; 2, 0]?;
        for row in 0..count {
            bytes.extend_from_slice(&[4, row, 0])?;
        }
        rule(bytes.as_slice())
    }

    fn number(answer: Result<Added, AddFault>) -> Result<u8, AddFault> {
        answer.map(|added| added.number)
    }

    // The clause of two sets of atoms, each as bits.
    fn clause(plain: u64, negated: u64) -> Clause {
        Clause {
            plain: AtomSet::from(plain),
            negated: AtomSet::from(negated),
        }
    }

    #[test]
    fn names_end_at_48(rt: HostRuntime) -> Result<(), Fail> {
        let heap = rt.alloc();
        let mut table = Table::new();
        let fault = AddFault::TooManyNames(0);
        assert_eq!(rt; number(table.add(joined(heap, 48)?)), Err(fault));
        assert_eq!(rt; number(table.add(joined(heap, 47)?)), Ok(0));
        // the handle would be the 49th name
        assert_eq!(rt; number(table.add(rule(&LETTER)?)), Err(fault));
        assert_eq!(rt; (fault.number(), fault.detail()), (21, 0));
        let words = format!(in heap; "{fault}")?;
        assert_eq!(rt; words.as_str(), "more than 48 names at level 0");
        Ok(())
    }

    #[test]
    fn rules_end_at_16(rt: HostRuntime) -> Result<(), Fail> {
        let mut table = Table::new();
        for k in 0..16u8 {
            assert_eq!(rt; number(table.add(rule(&LETTER)?)), Ok(k));
        }
        let fault = AddFault::TooManyRules;
        assert_eq!(rt; number(table.add(rule(&LETTER)?)), Err(fault));
        assert_eq!(rt; (fault.number(), fault.detail()), (20, 0));
        let words = format!(in rt.alloc(); "{fault}")?;
        assert_eq!(rt; words.as_str(), "16 rules are held");
        Ok(())
    }

    // (p and box q) or not (p and box q): the rows of the box and of the and have both signs, and so two names each.
    // By row, plus before minus, the handle last: 16 and 17 are the box, 18 and 19 the and, 20 the or, 21 the handle.
    #[test]
    fn both_signs_have_names(rt: HostRuntime) -> Result<(), Fail> {
        let mut table = Table::new();
        let both = rule(&[2, 0, 2, 1, 6, 1, 4, 0, 2, 3, 3, 5, 3, 4])?;
        let added = table.add(both)?;
        let (p, q) = (0, 1);
        let definitions = [
            clause(1 << p, 1 << 18),
            clause(1 << 16, 1 << 18),
            clause(1 << 17, 1 << 19 | 1 << p),
            clause(1 << 18 | 1 << 19, 1 << 20),
            clause(1 << 20, 1 << 21),
        ];
        assert_eq!(rt; added.definitions.at(Level::ROOT), definitions.as_slice());
        let every = ModalClause {
            name: 16,
            literal: Literal {
                atom: q,
                holds: true,
            },
        };
        assert_eq!(rt; table.boxes(Level::ROOT), [every].as_slice());
        let some = ModalClause {
            name: 17,
            literal: Literal {
                atom: q,
                holds: false,
            },
        };
        assert_eq!(rt; table.diamonds(Level::ROOT), [some].as_slice());
        // the next rule takes the name after the last
        let next = table.add(rule(&LETTER)?)?;
        assert_eq!(rt;
            next.definitions.at(Level::ROOT),
            [clause(1 << p, 1 << 22)].as_slice()
        );
        Ok(())
    }
}
