// The names of a level: taking them, and the literals that they give.
ghost use Rattle.std.specs.Prelude.{◌≡◌, ◌+◌, ◌<◌, ◌≤◌, ◌++◌, length, position};
ghost use Rattle.std.specs.Option.{option_map};
ghost use Rattle.fixed_list.specs.Items.{items_of};
ghost use Rattle.clausal.specs.Counting.{count_of_names};
ghost use Rattle.naming.specs.Names.{literal_in, names_for, same_name};

use crate::counts::NAMES;
use crate::numbers::{LEVEL, place_of};
use crate::reached::ReachedRule;
use atoms::clauses::Literal;
use atoms::levels::Level;
use atoms::sets::TRUE_ATOM;
use clausal::names::Name;
use fixed_list::ArrayVec;
use modal::row::Row;

/// The names of one level, atom 16 first. In fixed memory, as all that a session holds, since no call may fail for want of it.
pub(crate) type Names = ArrayVec<Name, NAMES>;

// The atom of the first name.
pub(crate) const FIRST_NAME: u8 = 16;

// The atom of a name among those of its level.
pub(crate) fn atom_of(names: &Names, name: Name) -> Option<u8>
    ensures { result ≡ option_map (λ i. 16 + i) (position (same_name name) (items_of names.now)) }
{
    let slot = names.as_slice().iter().position(|held| *held == name)?;
    Some(FIRST_NAME + slot as u8)
}

impl ReachedRule<'_> {
    // Appends the names that the rule takes at a level: places in the order of their numbers, the handle last.
    pub(crate) fn name_level(&self, level: Level, names: &mut Names)
        requires { length (items_of names.old) + count_of_names self.now.rows.now level ≤ 48 }
        ensures { items_of names.new ≡ items_of names.old ++ names_for self.now.number self.now.rows.now level }
    {
        let rule = self.number;
        let first = usize::from(level) * LEVEL;
        for n in (first..first + LEVEL).filter(|n| self.is_named(*n)) {
            let place = place_of(n);
            let name = Name::Place {
                rule,
                row: place.row,
                plus: place.plus,
            };
            names.push(name).unwrap();
        }
        if level == Level::ROOT {
            names.push(Name::Handle(rule)).unwrap();
        }
    }

    // The literal of a row with a sign, over a level's names.
    #[tactic(auto, using(crate::proofs::Lookups::literal_by_row, crate::proofs::Lookups::row_ok), unfolding(crate::specs::Names::literal_in))]
    pub(crate) fn literal(&self, names: &Names, row: u8, plus: bool) -> Literal
        requires { row < length self.now.rows.now }
        ensures value { result ≡ literal_in (items_of names.now) self.now.number self.now.rows.now plus row }
        ensures small { result.atom < 64 }
    {
        match self.rows[usize::from(row)] {
            Row::False => Literal {
                atom: TRUE_ATOM,
                holds: !plus,
            },
            Row::True => Literal {
                atom: TRUE_ATOM,
                holds: plus,
            },
            Row::Letter(atom) => Literal { atom, holds: plus },
            Row::Not(c) => self.literal(names, c, !plus),
            Row::And(_, _) | Row::Or(_, _) | Row::Box(_) | Row::Diamond(_) => {
                let name = Name::Place {
                    rule: self.number,
                    row,
                    plus,
                };
                // 0 where there is none, as the definition has it: no reached place is without its name
                Literal::positive(atom_of(names, name).unwrap_or(0))
            }
        }
    }
}
