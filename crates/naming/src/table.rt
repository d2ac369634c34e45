// The table of a session: the rows of its rules, what each name stands for, its box clauses and its diamond clauses.
ghost use Rattle.std.specs.Prelude.{◌≡◌, ℕ, true};
ghost use Rattle.clausal.specs.Clausal.{boxed, diamonded, modals_at};
ghost use Rattle.lists.specs.Lists.{every};
ghost use Rattle.modal.specs.Rows.{lawful};
ghost use Rattle.naming.specs.Levels.{names_at, boxes_at, diamonds_at, held_rules, named_state};
ghost use Rattle.naming.specs.Names.{names_from};

use crate::definitions::Definitions;
use crate::level_table::{LevelTable, take_in};
use crate::names::atom_of;
use crate::reached::ReachedRule;
use atoms::levels::{LEVELS, Level};
use clausal::faults::AddFault;
use clausal::modal_clauses::ModalClause;
use clausal::names::Name;
use fixed_list::ArrayVec;
use modal::row_list::RowList;
use modal::rule::Rule;

/// How many rules a table may hold.
pub const RULES: usize = 16;

/// The clausal form of up to 16 rules, but for their definitions, which an oracle holds.
#[derive(Drop)]
pub struct Table {
    rules: ArrayVec<RowList, RULES>,
    levels: [LevelTable; LEVELS],
    ghost rules_lawful: { every lawful (held_rules rules) ≡ true },
    ghost named: { ((l : ℕ) → names_at levels l ≡ names_from 0 (held_rules rules) l) },
    ghost boxes_given: { ((l : ℕ) → boxes_at levels l ≡ modals_at boxed (named_state (held_rules rules) (names_at levels)) l) },
    ghost diamonds_given: { ((l : ℕ) → diamonds_at levels l ≡ modals_at diamonded (named_state (held_rules rules) (names_at levels)) l) },
}

/// A rule that was taken in: its number, and the definitions that an oracle is to take.
#[derive(Drop)]
pub struct Added {
    pub number: u8,
    pub definitions: Definitions,
}

impl Table {
    ghost use Rattle.std.specs.Prelude.{◌≡◌, ◌≤◌, length, MatchOption};
    ghost use Rattle.clausal.specs.Clausal.{Orderly};
    ghost use Rattle.clausal.specs.Counting.{add_answer};
    ghost use Rattle.modal.specs.Rules.{listed, rows_of};
    ghost use Rattle.naming.specs.Tables.{rules_in, boxes_in, diamonds_in, NewTable, number_in, AddsRule, HasRows, HasHandle};

    /// The table of a new session: no rules.
    pub fn new() -> Table
        ensures { NewTable result }
    {
        Table {
            rules: ArrayVec::new(RowList::from(Rule::new())),
            levels: [LevelTable::new(); LEVELS],
        }
    }

    /// Takes in exactly the clausal form of the rule, which is used up, and answers its number with its definitions.
    /// A refusal leaves the table as it was.
    pub fn add(&mut self, rule: Rule) -> Result<Added, AddFault>
        ensures answer { number_in result ≡ add_answer (rules_in self.old) (rows_of rule) }
        ensures step { AddsRule self.old (rows_of rule) self.new result }
    {
        let number = self.rules.len();
        if number >= RULES {
            return Err(AddFault::TooManyRules);
        }
        let number = number as u8;
        let reached = ReachedRule::new(number, &rule);
        if let Some(level) = reached.crowded_level(&self.levels) {
            return Err(AddFault::TooManyNames(level.number()));
        }
        let mut definitions = Definitions::none();
        take_in(&mut self.levels, &reached, &mut definitions);
        self.rules.push(RowList::from(rule)).unwrap();
        Ok(Added {
            number,
            definitions,
        })
    }

    /// How many rules are held.
    pub fn len(&self) -> usize
        ensures value { result ≡ length (rules_in self.now) }
        ensures small { result ≤ 16 }
    {
        self.rules.len()
    }

    /// The rows of the rule with the number, if it is held.
    pub fn rows(&self, number: u8) -> Option<RowList>
        ensures { MatchOption result (length (rules_in self.now) ≤ number) (λ list. HasRows (rules_in self.now) number (listed list)) }
    {
        self.rules.as_slice().get(usize::from(number)).copied()
    }

    /// The handle of the rule with the number, if it is held.
    #[tactic(auto, using(crate::proofs::TableReads::handle_found))]
    pub fn handle(&self, number: u8) -> Option<u8>
        ensures { MatchOption result (length (rules_in self.now) ≤ number) (λ a. HasHandle self.now number a) }
    {
        let names = &self.levels[usize::from(Level::ROOT)].names;
        atom_of(names, Name::Handle(number))
    }

    /// The box clauses of the level, by rising name.
    // A call of its own beside that for diamond clauses: of one for both a caller would have to say which.
    pub fn boxes(&self, level: Level) -> &[ModalClause]
        ensures value { result.now ≡ boxes_in self.now level }
        ensures orderly { Orderly level result.now }
    {
        self.levels[usize::from(level)].boxes.as_slice()
    }

    /// The diamond clauses of the level, by rising name.
    pub fn diamonds(&self, level: Level) -> &[ModalClause]
        ensures value { result.now ≡ diamonds_in self.now level }
        ensures orderly { Orderly level result.now }
    {
        self.levels[usize::from(level)].diamonds.as_slice()
    }
}
