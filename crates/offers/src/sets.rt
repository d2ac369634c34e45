// The sets of offers that are measured.
use crate::offers::Offer;
use random::Random;
use random_rules::{Shape, draw_all};
use rule_sets::RuleSet;
use std::alloc::{AllocError, Global};

/// Offers that are measured together.
#[derive(Drop)]
pub(crate) struct Set {
    pub(crate) name: &'static str,
    pub(crate) offers: Vec<RuleSet>,
}

/// Random offers: how many, and what each is drawn from.
#[derive(Clone, Copy)]
struct Drawn {
    name: &'static str,
    offers: u8,
    rules: u8,
    shape: Shape,
}

const DRAWN: [Drawn; 3] = [
    Drawn {
        name: "small random offers",
        offers: 100,
        rules: 5,
        shape: Shape {
            letters: 2,
            depth: 1,
        },
    },
    Drawn {
        name: "random offers",
        offers: 100,
        rules: 8,
        shape: Shape {
            letters: 3,
            depth: 2,
        },
    },
    Drawn {
        name: "large random offers",
        offers: 100,
        rules: 12,
        shape: Shape {
            letters: 5,
            depth: 3,
        },
    },
];

fn draw(drawn: Drawn, heap: Global) -> Result<Set, AllocError> {
    // the same for each set, and in each run
    let mut random = Random::new(1);
    let mut offers = Vec::new(heap);
    for _ in 0..drawn.offers {
        let rules = draw_all(&mut random, drawn.shape, drawn.rules, heap)?;
        offers.push(RuleSet::new(rules))?;
    }
    Ok(Set {
        name: drawn.name,
        offers,
    })
}

fn single(offer: Offer, heap: Global) -> Result<Set, AllocError> {
    let mut offers = Vec::new(heap);
    offers.push(offer.rules(heap)?)?;
    Ok(Set {
        name: offer.name(),
        offers,
    })
}

/// All sets, always the same.
pub(crate) fn sets(heap: Global) -> Result<Vec<Set>, AllocError> {
    let mut sets = Vec::new(heap);
    for offer in Offer::ALL {
        sets.push(single(offer, heap)?)?;
    }
    for drawn in DRAWN {
        sets.push(draw(drawn, heap)?)?;
    }
    Ok(sets)
}
