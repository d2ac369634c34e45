// The table of one level, and taking in a rule level by level.
ghost use Rattle.std.specs.Prelude.{◌≡◌, ℕ, ◌+◌, ◌<◌, ◌≤◌, [], ◌++◌, map, length};
ghost use Rattle.fixed_list.specs.Items.{items_of};
ghost use Rattle.atoms.specs.Clauses.{clause_from};
ghost use Rattle.clausal.specs.Clausal.{boxed, diamonded, defines, modals};
ghost use Rattle.clausal.specs.Counting.{count_of_names};
ghost use Rattle.naming.specs.Levels.{lists_of, no_lists, lists_at};
ghost use Rattle.naming.specs.Names.{literal_in};
ghost use Rattle.naming.specs.Tables.{definitions_at};
ghost use Rattle.naming.specs.TakenIn.{TakenAt, TakenIn, clauses_of_name, modals_of_name, NameInRule, ShapeInRule};

use crate::clauses::{implies, implies_either};
use crate::counts::NAMES;
use crate::definitions::{Definitions, LevelClauses};
use crate::names::{FIRST_NAME, Names};
use crate::reached::ReachedRule;
use atoms::clauses::Literal;
use atoms::levels::{LEVELS, Level};
use clausal::modal_clauses::ModalClause;
use clausal::names::Name;
use clausal::shapes::Shape;
use fixed_list::ArrayVec;

/// The box clauses, or the diamond clauses, of one level: at most one for each name.
pub(crate) type ModalClauses = ArrayVec<ModalClause, NAMES>;

/// What stands at one level: its names, its box clauses and its diamond clauses.
#[derive(Clone, Copy)]
pub(crate) struct LevelTable {
    pub(crate) names: Names,
    pub(crate) boxes: ModalClauses,
    pub(crate) diamonds: ModalClauses,
}

impl LevelTable {
    /// The table of a level where nothing stands.
    pub(crate) fn new() -> LevelTable
        ensures { lists_of result ≡ no_lists }
    {
        let none = ModalClause {
            name: 0,
            literal: Literal {
                atom: 0,
                holds: false,
            },
        };
        LevelTable {
            names: ArrayVec::new(Name::Free),
            boxes: ArrayVec::new(none),
            diamonds: ArrayVec::new(none),
        }
    }

    // Appends what a shape under a sign gives to name n: definitions over the names here, a box or diamond clause over the
    // names one level further.
    // What it is over and what it is written to stand apart: a struct of both would lend the level twice, and one of `rule`
    // and `further` would be made anew at each level for two calls.
    fn give_shape(
        &mut self,
        rule: &ReachedRule,
        further: &Names,
        n: u8,
        shape: Shape,
        plus: bool,
        definitions: &mut LevelClauses,
    )
        requires shape { ShapeInRule rule.now.rows.now shape }
        requires definitions { length (items_of definitions.old) + 2 ≤ 96 }
        requires boxes { length (items_of self.old.boxes) < 48 }
        requires diamonds { length (items_of self.old.diamonds) < 48 }
        ensures names { self.new.names ≡ self.old.names }
        ensures definitions { items_of definitions.new ≡ items_of definitions.old ++ map clause_from (defines n (literal_in (items_of self.old.names) rule.now.number rule.now.rows.now plus) shape) }
        ensures boxes { items_of self.new.boxes ≡ items_of self.old.boxes ++ modals n (literal_in (items_of further.now) rule.now.number rule.now.rows.now plus) (boxed shape) }
        ensures diamonds { items_of self.new.diamonds ≡ items_of self.old.diamonds ++ modals n (literal_in (items_of further.now) rule.now.number rule.now.rows.now plus) (diamonded shape) }
    {
        let names = &self.names;
        let here = |c: u8| rule.literal(names, c, plus);
        let modal = |c: u8| ModalClause {
            name: n,
            literal: rule.literal(further, c, plus),
        };
        match shape {
            Shape::Plain => {}
            Shape::Both(c, e) => {
                let x = here(c);
                let y = here(e);
                definitions.push(implies(n, x)).unwrap();
                definitions.push(implies(n, y)).unwrap();
            }
            Shape::Either(c, e) => {
                definitions
                    .push(implies_either(n, here(c), here(e)))
                    .unwrap();
            }
            Shape::All(c) => self.boxes.push(modal(c)).unwrap(),
            Shape::One(c) => self.diamonds.push(modal(c)).unwrap(),
        }
    }

    // Appends what name n of the rule gives.
    #[tactic(auto, using(crate::proofs::Giving::shape_rows))]
    fn give(
        &mut self,
        rule: &ReachedRule,
        further: &Names,
        n: u8,
        name: Name,
        definitions: &mut LevelClauses,
    )
        requires name { NameInRule rule.now.rows.now name }
        requires definitions { length (items_of definitions.old) + 2 ≤ 96 }
        requires boxes { length (items_of self.old.boxes) < 48 }
        requires diamonds { length (items_of self.old.diamonds) < 48 }
        ensures names { self.new.names ≡ self.old.names }
        ensures definitions { items_of definitions.new ≡ items_of definitions.old ++ clauses_of_name (items_of self.old.names) rule.now.number rule.now.rows.now n name }
        ensures boxes { items_of self.new.boxes ≡ items_of self.old.boxes ++ modals_of_name boxed (items_of further.now) rule.now.number rule.now.rows.now n name }
        ensures diamonds { items_of self.new.diamonds ≡ items_of self.old.diamonds ++ modals_of_name diamonded (items_of further.now) rule.now.number rule.now.rows.now n name }
    {
        match name {
            Name::Free => {}
            Name::Place { row, plus, .. } => {
                let shape = Shape::of(rule.rows[usize::from(row)], plus);
                self.give_shape(rule, further, n, shape, plus, definitions);
            }
            Name::Handle(_) => {
                let x = rule.literal(&self.names, (rule.rows.len() - 1) as u8, true);
                definitions.push(implies(n, x)).unwrap();
            }
        }
    }

    // Takes in a rule at a level, over the names that the level after it then has, and writes the rule's definitions here.
    // They are written where they stay: to answer them would move all the room that they may want.
    fn take_in(
        &mut self,
        rule: &ReachedRule,
        level: Level,
        further: &Names,
        definitions: &mut LevelClauses,
    )
        requires room { length (items_of self.old.names) + count_of_names rule.now.rows.now level ≤ 48 }
        requires boxes { length (items_of self.old.boxes) ≤ length (items_of self.old.names) }
        requires diamonds { length (items_of self.old.diamonds) ≤ length (items_of self.old.names) }
        requires none { items_of definitions.old ≡ [] }
        ensures { TakenAt rule.now.number rule.now.rows.now level (items_of further.now) (lists_of self.old) (lists_of self.new) (items_of definitions.new) }
    {
        let from = self.names.len();
        rule.name_level(level, &mut self.names);
        // a copy, since clauses are written beside the names while these are gone over
        let names = self.names;
        for (i, name) in names.as_slice().iter().enumerate().skip(from) {
            let n = FIRST_NAME + i as u8;
            self.give(rule, further, n, *name, definitions);
        }
    }
}

// Takes in a rule, and writes its definitions at each level. It goes from the last level up, since the box and diamond
// clauses of a level are over the names of the level after it; after the last there are none.
#[tactic(auto, using(crate::proofs::AtLevel::level_read))]
pub(crate) fn take_in(
    levels: &mut [LevelTable; LEVELS],
    rule: &ReachedRule,
    definitions: &mut Definitions,
)
    requires room { (l : ℕ) → l < 8 → length (lists_at levels.old l).names + count_of_names rule.now.rows.now l ≤ 48 }
    requires boxes { (l : ℕ) → length (lists_at levels.old l).boxes ≤ length (lists_at levels.old l).names }
    requires diamonds { (l : ℕ) → length (lists_at levels.old l).diamonds ≤ length (lists_at levels.old l).names }
    requires none { (l : ℕ) → definitions_at definitions.old l ≡ [] }
    ensures { TakenIn rule.now.number rule.now.rows.now (lists_at levels.old) (lists_at levels.new) (definitions_at definitions.new) }
{
    let mut further = ArrayVec::new(Name::Free);
    // by index, as it goes backwards: of what is written through `iter_mut` under `rev` no proof knows, and over `Level::ALL`
    // backwards each index would be a level turned into one
    for level in (0..LEVELS).rev() {
        let given = &mut definitions.levels[level];
        levels[level].take_in(rule, Level::ALL[level], &further, given);
        further = levels[level].names;
    }
}
