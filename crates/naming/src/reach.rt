// The places that a rule reaches, found by a walk with a stack of the places still to be followed.
//
// What makes it right: a marked place is on the stack, or all that it leads to is marked or due to be visited
// (`WalkInvariant`); so where the stack is empty and nothing is due, the marks are the reached places (`ended`).
ghost use Rattle.std.specs.Prelude.{◌≡◌, ◌+◌, ◌<◌, ◌≤◌, true, false, [], ◌∷◌, ◌++◌, length, if◌then◌else◌, slice_index_or, slice_set};
ghost use Rattle.modal.specs.Rows.{lawful};
ghost use Rattle.modal.specs.Rules.{rows_of};
ghost use Rattle.naming.specs.Marks.{count_of_marks};
ghost use Rattle.naming.specs.Numbers.{number_of};
ghost use Rattle.clausal.specs.Places.{leads_of};
ghost use Rattle.naming.specs.Walk.{WalkInvariant};
ghost use Rattle.stack.specs.Entries.{entries_of, slots_of, lender_of};

use crate::numbers::{PLACES, number, place_of};
use crate::reached::ReachedRule;
use atoms::levels::Level;
use clausal::places::Place;
use modal::row::Row;
use modal::rule::Rule;
use stack::Stack;

// The rows of a rule, the marks of the places that were visited, and the numbers of those that are still to be followed.
#[derive(Drop)]
struct Walk<'r, 'a> {
    rows: &'r [Row],
    marks: [bool; PLACES],
    todo: Stack<'a, u16>,
    ghost lawful: { lawful rows.now ≡ true },
    ghost slots: { length (slots_of todo) ≡ 1024 },
    ghost room: { length (entries_of todo) ≤ count_of_marks marks },
}

impl Walk<'_, '_> {
    // Marks a place, and puts its number on the stack if it was not marked before. Of its row it asks what `number` asks.
    fn visit(&mut self, place: Place)
        requires { place.row < 64 }
        ensures marks { self.new.marks ≡ slice_set self.old.marks (number_of place) true }
        ensures todo { entries_of self.new.todo ≡ (if slice_index_or self.old.marks (number_of place) false then entries_of self.old.todo else entries_of self.old.todo ++ number_of place ∷ []) }
        ensures count { length (entries_of self.new.todo) + count_of_marks self.old.marks ≡ length (entries_of self.old.todo) + count_of_marks self.new.marks }
        ensures rows { self.new.rows.now ≡ self.old.rows.now }
        ensures lent { lender_of self.new.todo ≡ lender_of self.old.todo }
    {
        let n = number(place);
        if !self.marks[n] {
            self.marks[n] = true;
            self.todo.push(n as u16).unwrap();
        }
    }

    // Visits what a place leads to.
    #[tactic(auto, using(crate::proofs::Lookups::row_ok, modal::proofs::Built::few_rows))]
    fn follow(&mut self, place: Place)
        requires row { place.row < length self.old.rows.now }
        requires due { WalkInvariant self.old.rows.now (leads_of self.old.rows.now place) self.old.marks (entries_of self.old.todo) }
        ensures walk { WalkInvariant self.old.rows.now [] self.new.marks (entries_of self.new.todo) }
        ensures count { length (entries_of self.new.todo) + count_of_marks self.old.marks ≡ length (entries_of self.old.todo) + count_of_marks self.new.marks }
        ensures rows { self.new.rows.now ≡ self.old.rows.now }
        ensures lent { lender_of self.new.todo ≡ lender_of self.old.todo }
    {
        let row = self.rows[usize::from(place.row)];
        match row {
            Row::False | Row::True | Row::Letter(_) => {}
            Row::Not(c) => {
                let plus = !place.plus;
                self.visit(Place {
                    row: c,
                    plus,
                    ..place
                });
            }
            Row::And(c, e) | Row::Or(c, e) => {
                self.visit(Place { row: c, ..place });
                self.visit(Place { row: e, ..place });
            }
            Row::Box(c) | Row::Diamond(c) => {
                if let Some(level) = place.level.next() {
                    self.visit(Place {
                        row: c,
                        level,
                        ..place
                    });
                }
            }
        }
    }
}

impl<'r> ReachedRule<'r> {
    // The rule with the number that it is to have, and the marks of its reached places.
    pub(crate) fn new(number: u8, rule: &'r Rule) -> ReachedRule<'r>
        ensures number { result.number ≡ number }
        ensures rows { result.rows.now ≡ rows_of rule.now }
    {
        let rows = rule.rows();
        let mut slots = [0u16; PLACES];
        let mut walk = Walk {
            rows,
            marks: [false; PLACES],
            todo: Stack::new(&mut slots),
        };
        walk.visit(Place {
            row: (rows.len() - 1) as u8,
            plus: true,
            level: Level::ROOT,
        });
        while let Some(n) = walk.todo.pop() {
            walk.follow(place_of(usize::from(n)));
        }
        ReachedRule {
            number,
            rows: walk.rows,
            marks: walk.marks,
        }
    }
}
