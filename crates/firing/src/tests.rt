use crate::firing::{fired_names, named, part};
use crate::learning::learnt_clause;
use atoms::assumptions::Assumptions;
use atoms::clauses::{Clause, Literal};
use atoms::sets::AtomSet;
use clausal::modal_clauses::ModalClause;

fn modal_clause(name: u8, atom: u8, holds: bool) -> ModalClause {
    ModalClause {
        name,
        literal: Literal { atom, holds },
    }
}

fn boxes() -> [ModalClause; 4] {
    [
        modal_clause(16, 3, true),
        modal_clause(17, 5, false),
        modal_clause(18, 3, true),
        modal_clause(19, 6, true),
    ]
}

#[test]
fn three_of_four_boxes_fire(rt: HostRuntime) {
    let boxes = boxes();
    let diamond = modal_clause(30, 7, true);
    let valuation = AtomSet::from(1 << 16 | 1 << 17 | 1 << 18 | 1 << 30);
    let fired = fired_names(&boxes, valuation);
    assert_eq!(rt; fired, AtomSet::from(1 << 16 | 1 << 17 | 1 << 18));
    assert_eq!(rt; named(&boxes, 18), Some(modal_clause(18, 3, true)));
    assert_eq!(rt; named(&boxes, 30), None);
    let tried = Assumptions {
        within: AtomSet::from(1 << 3 | 1 << 7),
        without: AtomSet::from(1 << 5),
    };
    assert_eq!(rt; part(&boxes, valuation, diamond.literal), tried);
    let core = Assumptions {
        within: AtomSet::from(1 << 3 | 1 << 7),
        without: AtomSet::NONE,
    };
    let learnt = Clause {
        plain: AtomSet::NONE,
        negated: AtomSet::from(1 << 16 | 1 << 30),
    };
    assert_eq!(rt; learnt_clause(&boxes, valuation, diamond, core), learnt);
}
