//! Rules that are asked together, for the programs that try sessions. They are kept as bytes and read as often as they
//! are wanted, since a session uses up a rule that it is given. It is proved that all this is safe and ends; what it
//! says is compared by the programs.
//!
//! - `RuleSet::new`, `len`: rules, numbered as a session numbers them
//! - `RuleSet::add_to`, `all`: adds them to a session, and the question for all of them
//! - `RuleSet::asked`: those that a question asks
//! - `RuleSet::verdict`: the verdict on all of them in one word
//! - `choices`: a rule that takes many learnt clauses
#![tactic(auto)]

ghost use Rattle.std.specs.Prelude.{◌≡◌, ◌-◌, ◌^◌, length, min};
ghost use Rattle.rule_sets.specs.Sets.{writers_in};

use modal::row::Row;
use modal::rule::Rule;
use oracle::Oracle;
use rule_writer::Writer;
use search::Searcher;
use session::session::Session;
use session::verdict::Verdict;
use std::alloc::{AllocError, Global};
use std::fmt;

/// Rules, numbered as a session numbers them.
#[derive(Drop)]
pub struct RuleSet {
    rules: Vec<Writer>,
}

impl RuleSet {
    /// The rules in their order.
    pub fn new(rules: Vec<Writer>) -> RuleSet
        ensures { writers_in result ≡ rules.items }
    {
        RuleSet { rules }
    }

    /// How many they are.
    pub fn len(&self) -> usize
        ensures { result ≡ length (writers_in self.now) }
    {
        self.rules.len()
    }

    /// Adds the rules to a session that has none.
    pub fn add_to<O: Oracle>(&self, session: &mut Session<O>) -> anyhow::Result<()> {
        for writer in &self.rules {
            session.add(writer.rule()?)?;
        }
        Ok(())
    }

    /// The question for all of them, as far as a question goes: the first 16.
    pub fn all(&self) -> u16
        ensures { result ≡ 2 ^ min (length (writers_in self.now)) 16 - 1 }
    {
        let asked = self.rules.len().min(16);
        ((1_u32 << asked) - 1) as u16
    }

    /// The rules that the question asks.
    pub fn asked(&self, question: u16, heap: Global) -> anyhow::Result<Vec<Rule>> {
        let mut rules = Vec::new(heap);
        for (number, writer) in self.rules.iter().enumerate() {
            if number < 16 && question >> number & 1 == 1 {
                rules.push(writer.rule()?)?;
            }
        }
        Ok(rules)
    }

    /// What a session over the oracle that searches says of all the rules, in one word.
    pub fn verdict(&self) -> anyhow::Result<&'static str> {
        let mut session = Session::new(Searcher::new());
        self.add_to(&mut session)?;
        Ok(match session.question(self.all(), &mut []) {
            Ok(Verdict::Open(_)) => "open",
            Ok(Verdict::Closed(_)) => "closed",
            Err(_) => "given-up",
        })
    }
}

/// The bytes of each rule, two hexadecimal digits each, a space before each rule.
impl fmt::Display for RuleSet {
    fn fmt<W: fmt::Write>(&self, f: &mut fmt::Formatter<W>) -> fmt::Result {
        for writer in &self.rules {
            write!(f, " {writer}")?;
        }
        Ok(())
    }
}

/// Each of so many letters at every part, or at none, and a part that cannot exist: it is closed, and each choice of
/// letters is ruled out by a learnt clause of its own.
pub fn choices(letters: u8, heap: Global) -> Result<Writer, AllocError> {
    let mut w = Writer::new(heap);
    let nothing = w.row(Row::False)?;
    let mut all = w.row(Row::Diamond(nothing))?;
    for letter in 0..letters {
        let letter = w.row(Row::Letter(letter))?;
        let everywhere = w.row(Row::Box(letter))?;
        let not = w.row(Row::Not(letter))?;
        let nowhere = w.row(Row::Box(not))?;
        let choice = w.row(Row::Or(everywhere, nowhere))?;
        all = w.row(Row::And(all, choice))?;
    }
    Ok(w)
}
