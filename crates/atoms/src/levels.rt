ghost use Rattle.std.specs.Prelude.{◌≡◌, ◌+◌, ◌<◌, ◌≤◌, MatchOption};

use std::marker::Model;

/// How many levels there are: 0 to 7.
pub const LEVELS: usize = 8;

/// A number of steps from the root, 0 to 7. Clauses see the number.
#[derive(Clone, Copy, PartialEq, Eq, PartialOrd, Ord, Debug)]
pub struct Level {
    number: u8,
}

impl Model for Level {
    ghost use Rattle.std.specs.Prelude.{ℕ, ◌<◌};

    ghost Value = { ℕ };

    ghost view = { λ l. l.number };

    ghost invariant = { λ l. l.number < 8 };

    ghost inverse = { λ n. record { number = n } };
}

impl Level {
    /// The level of the root.
    pub const ROOT: Level = Level { number: 0 };

    /// The last level.
    pub const DEEPEST: Level = Level { number: 7 };

    /// Every level, the root's first.
    pub const ALL: [Level; LEVELS] = [
        Level { number: 0 },
        Level { number: 1 },
        Level { number: 2 },
        Level { number: 3 },
        Level { number: 4 },
        Level { number: 5 },
        Level { number: 6 },
        Level { number: 7 },
    ];

    /// The level of the number, or none from 8 on.
    // An Option and no TryFrom: of a number that is no level there is nothing more to say.
    pub fn new(number: u8) -> Option<Level>
        ensures { MatchOption result (8 ≤ number) (λ l. (l ≡ number) × (number < 8)) }
    {
        if usize::from(number) < LEVELS {
            return Some(Level { number });
        }
        None
    }

    /// The number of the level, below 8.
    // Beside the conversion to an index, since callers know it by this name.
    pub fn number(self) -> u8
        ensures same { result ≡ self }
        ensures small { result < 8 }
    {
        self.number
    }

    /// One level further from the root, or none at the last.
    pub fn next(self) -> Option<Level>
        ensures { MatchOption result (7 ≤ self) (λ l. (l ≡ self + 1) × (self < 7)) }
    {
        Level::new(self.number + 1)
    }

    /// One level nearer to the root, or none at the root.
    pub fn previous(self) -> Option<Level>
        ensures { MatchOption result (self ≡ 0) (λ l. l + 1 ≡ self) }
    {
        Level::new(self.number.checked_sub(1)?)
    }
}

// The constants, where no contract above this crate asks for the number.
const _: () = prove!(Level::DEEPEST.number == 7);

// The number of the level as an index.
impl From<Level> for usize {
    ghost from_gives = { λ level n. (n ≡ level) × (n < 8) };

    fn from(level: Level) -> usize {
        usize::from(level.number)
    }
}
