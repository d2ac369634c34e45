// How many names a rule takes at a level.
ghost use Rattle.std.specs.Prelude.{◌≡◌, ◌+◌, ◌<◌, ◌≤◌, count_by};
ghost use Rattle.std.specs.List.{find, range_with_len};
ghost use Rattle.clausal.specs.Clausal.{takes_name};
ghost use Rattle.clausal.specs.Counting.{count_of_names};
ghost use Rattle.naming.specs.Order.{is_named, too_many_names};

use crate::level_table::LevelTable;
use crate::numbers::{LEVEL, place_of};
use crate::reached::ReachedRule;
use atoms::levels::{LEVELS, Level};
use modal::row::Row;

// How many names a level has.
pub(crate) const NAMES: usize = 48;

fn row_takes_name(row: Row) -> bool
    ensures { result ≡ takes_name row }
{
    matches!(
        row,
        Row::And(_, _) | Row::Or(_, _) | Row::Box(_) | Row::Diamond(_)
    )
}

impl ReachedRule<'_> {
    // Whether the place of a number is reached and takes a name.
    #[tactic(auto, using(crate::proofs::NamedPlaces::reaches_row), unfolding(crate::specs::Order::is_named))]
    pub(crate) fn is_named(&self, n: usize) -> bool
        requires { n < 1024 }
        ensures { result ≡ is_named self.now.rows.now n }
    {
        if !self.marks[n] {
            return false;
        }
        let place = place_of(n);
        row_takes_name(self.rows[usize::from(place.row)])
    }

    // How many of the places from a number on, as many as a level has, take a name.
    // The chain that `name_level` goes over stands here again, as a chain can't be a function's result.
    fn count_named(&self, first: usize) -> usize
        requires { first + 128 ≤ 1024 }
        ensures { result ≡ count_by (is_named self.now.rows.now) (range_with_len first 128) }
    {
        (first..first + LEVEL).filter(|n| self.is_named(*n)).count()
    }

    // How many names the rule takes at a level.
    fn count_of_names(&self, level: Level) -> usize
        ensures value { result ≡ count_of_names self.now.rows.now level }
        ensures small { result ≤ 129 }
    {
        let handles = usize::from(level == Level::ROOT);
        self.count_named(usize::from(level) * LEVEL) + handles
    }

    // The lowest level that would have too many names.
    pub(crate) fn crowded_level(&self, levels: &[LevelTable; LEVELS]) -> Option<Level>
        ensures { result ≡ find (too_many_names levels.now self.now.rows.now) (range_with_len 0 8) }
    {
        Level::ALL.iter().copied().find(
            |level|
                ensures { result ≡ too_many_names levels.entry.now self.entry.now.rows.now level.now }
            { levels[usize::from(*level)].names.len() + self.count_of_names(*level) > NAMES },
        )
    }
}
