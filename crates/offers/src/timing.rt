// How long sessions take over the oracle that searches.
use crate::counting::Counting;
use crate::sets::{Set, sets};
use rule_sets::RuleSet;
use search::Searcher;
use session::session::Session;
use std::cell::Cell;
use std::fmt;
use std::time::Instant;

// How often each thing is done for a set, so that there is something to measure.
const TIMES: u32 = 2_000;

/// What was seen of a set: the solves for one question about each offer, and nanoseconds: to make a session with its
/// rules, to ask when nothing is learnt, and to ask again.
#[derive(Clone, Copy)]
struct Measured {
    offers: usize,
    solves: u64,
    adding: u128,
    first: u128,
    further: u128,
}

impl fmt::Display for Measured {
    fn fmt<W: fmt::Write>(&self, f: &mut fmt::Formatter<W>) -> fmt::Result {
        let questions = 1_000_000_000 / self.first.max(1);
        let solve = self.first.saturating_mul(self.offers as u128) / u128::from(self.solves).max(1);
        let Measured {
            offers,
            solves,
            adding,
            first,
            further,
        } = *self;
        write!(f, "{offers} offers, {solves} solves; ")?;
        write!(
            f,
            "{adding} ns to add, {first} ns to ask, {further} ns again; "
        )?;
        write!(f, "{questions} questions a second, {solve} ns a solve")
    }
}

/// What is done again and again with a session that has the rules of an offer.
#[derive(Clone, Copy)]
enum Work {
    Forget,
    /// Nothing is learnt when the question is asked.
    ForgetAndAsk,
    Ask,
}

impl Work {
    fn once(self, session: &mut Session<Searcher>, asked: u16) {
        // a refusal is an answer too
        match self {
            Work::Forget => session.forget(),
            Work::ForgetAndAsk => {
                session.forget();
                let _ = session.question(asked, &mut []);
            }
            Work::Ask => {
                let _ = session.question(asked, &mut []);
            }
        }
    }

    // The nanoseconds for so many times on a session with the offer.
    fn spent(self, rt: &HostRuntime, offer: &RuleSet, times: u32) -> anyhow::Result<u128> {
        let mut session = Session::new(Searcher::new());
        offer.add_to(&mut session)?;
        let asked = offer.all();
        let _ = session.question(asked, &mut []);
        let start = Instant::now(rt)?;
        for _ in 0..times {
            self.once(&mut session, asked);
        }
        Ok(start.elapsed(rt)?.as_nanos())
    }

    // The nanoseconds for each time, over all offers of the set.
    fn each(self, rt: &HostRuntime, set: &Set, times: u32) -> anyhow::Result<u128> {
        let mut all = 0_u128;
        for offer in &set.offers {
            all = all.saturating_add(self.spent(rt, offer, times)?);
        }
        Ok(all / done(set, times).max(1))
    }
}

// How often something is done in all, if so many times for each offer.
fn done(set: &Set, times: u32) -> u128 {
    u128::from(times).saturating_mul(set.offers.len() as u128)
}

fn add_each(set: &Set) -> anyhow::Result<()> {
    for offer in &set.offers {
        let mut session = Session::new(Searcher::new());
        offer.add_to(&mut session)?;
    }
    Ok(())
}

// The nanoseconds for each session that is made and given its rules.
fn adding(rt: &HostRuntime, set: &Set, times: u32) -> anyhow::Result<u128> {
    let start = Instant::now(rt)?;
    for _ in 0..times {
        add_each(set)?;
    }
    Ok(start.elapsed(rt)?.as_nanos() / done(set, times).max(1))
}

// How often the oracle is asked for a valuation for the first question about the offer.
fn solves(offer: &RuleSet) -> anyhow::Result<u64> {
    let solves = Cell::new(0);
    let mut session = Session::new(Counting::new(Searcher::new(), &solves));
    offer.add_to(&mut session)?;
    // a refusal is an answer too
    let _ = session.question(offer.all(), &mut []);
    Ok(solves.get())
}

fn solves_of_all(set: &Set) -> anyhow::Result<u64> {
    let mut all = 0_u64;
    for offer in &set.offers {
        all = all.saturating_add(solves(offer)?);
    }
    Ok(all)
}

fn measure(rt: &HostRuntime, set: &Set) -> anyhow::Result<Measured> {
    let times = TIMES / u32::try_from(set.offers.len()).unwrap_or(1).max(1);
    let forgetting = Work::Forget.each(rt, set, times)?;
    let asking = Work::ForgetAndAsk.each(rt, set, times)?;
    Ok(Measured {
        offers: set.offers.len(),
        solves: solves_of_all(set)?,
        adding: adding(rt, set, times)?,
        first: asking.saturating_sub(forgetting),
        further: Work::Ask.each(rt, set, times)?,
    })
}

pub(crate) fn time(rt: &HostRuntime) -> anyhow::Result<()> {
    for set in sets(rt.alloc())? {
        println!(rt; "{}: {}", set.name, measure(rt, &set)?)?;
    }
    Ok(())
}
