// The session and its calls.
ghost use Rattle.clausal.specs.Adding.{Fresh};
ghost use Rattle.law.specs.Calls.{add, question, forget, forgotten};
ghost use Rattle.law.specs.Runs.{add_reply, CallLaw};
ghost use Rattle.modal.specs.Rules.{rows_of};
ghost use Rattle.session.specs.Effects.{AddEffect, QuestionEffect, ForgetEffect, WritesRule};
ghost use Rattle.session.specs.View.{view};
ghost use Rattle.session.specs.Replies.{numbers_of, question_reply};

use crate::asking::{assume, kept_in};
use crate::defining::{define_rule, start};
use crate::faults::{QuestionFault, RuleFault};
use crate::verdict::Verdict;
use clausal::faults::AddFault;
use engine::outcome::Outcome;
use engine::question::ask;
use modal::rule::Rule;
use naming::table::Table;
use oracle::Oracle;
use sheet::row::SheetRow;

/// Rules that are accepted, over an oracle.
#[derive(Drop)]
pub struct Session<O> {
    oracle: O,
    table: Table,
}

impl<O: Oracle> Session<O> {
    /// A session without rules, whatever the oracle held.
    pub fn new(mut oracle: O) -> Session<O>
        ensures { Fresh (view O.Oracle.entries result) }
    {
        oracle.clear();
        start(&mut oracle);
        Session {
            oracle,
            table: Table::new(),
        }
    }

    /// Takes in exactly the clausal form of the rule, which is used up, and answers its number.
    pub fn add(&mut self, rule: Rule) -> Result<u8, AddFault>
        ensures law { CallLaw (view O.Oracle.entries self.old) (add (rows_of rule)) (add_reply result) (view O.Oracle.entries self.new) }
        ensures effect { AddEffect O.Oracle.entries self.old self.new (rows_of rule) result }
    {
        let added = self.table.add(rule)?;
        define_rule(&mut self.oracle, &added.definitions);
        Ok(added.number)
    }

    /// Whether the rules asked hold together: rule k is asked by bit k. A tree that fits is shown on the sheet.
    pub fn question(&mut self, rules: u16, sheet: &mut [SheetRow]) -> Result<Verdict, QuestionFault>
        ensures law { CallLaw (view O.Oracle.entries self.old) (question (numbers_of rules)) (question_reply result) (view O.Oracle.entries self.new) }
        ensures effect { QuestionEffect O.Oracle.entries self.old self.new (numbers_of rules) sheet.old sheet.new result }
    {
        let under = assume(&self.table, rules)?;
        match ask(&mut self.oracle, &self.table, under, sheet) {
            Outcome::Open(count) => Ok(Verdict::Open(count)),
            Outcome::Closed(core) => Ok(Verdict::Closed(kept_in(&self.table, rules, core))),
            Outcome::Full(level) => Err(QuestionFault::LevelFull(level)),
        }
    }

    /// Drops all that was learnt.
    pub fn forget(&mut self)
        ensures law { CallLaw (view O.Oracle.entries self.old) forget forgotten (view O.Oracle.entries self.new) }
        ensures effect { ForgetEffect O.Oracle.entries self.old self.new }
    {
        self.oracle.forget();
    }

    /// Puts the bytes of the rule with the number at the start of the buffer, and answers how many they are.
    pub fn write(&self, rule: u8, out: &mut [u8]) -> Result<usize, RuleFault>
        ensures { WritesRule (view O.Oracle.entries self.now) rule out.old out.new result }
    {
        let rows = self.table.rows(rule).ok_or(RuleFault::UnknownRule(rule))?;
        let rule = Rule::try_from(rows).unwrap();
        Ok(rule.write(out)?)
    }
}
