// The numbers of places: level by level, row by row, plus before minus.
ghost use Rattle.std.specs.Prelude.{◌≡◌, ◌<◌};
ghost use Rattle.naming.specs.Numbers.{number_of, place_numbered};

use atoms::levels::{LEVELS, Level};
use clausal::places::Place;

// How many numbers a level has.
pub(crate) const LEVEL: usize = 128;

// How many numbers there are.
pub(crate) const PLACES: usize = LEVELS * LEVEL;

// A row below 64 is asked for here, since a place is any row with a sign at a level.
pub(crate) fn number(place: Place) -> usize
    requires { place.row < 64 }
    ensures value { result ≡ number_of place }
    ensures small { result < 1024 }
    ensures back { place_numbered result ≡ place }
{
    usize::from(place.level) * LEVEL + usize::from(place.row) * 2 + usize::from(!place.plus)
}

pub(crate) fn place_of(n: usize) -> Place
    requires { n < 1024 }
    ensures value { result ≡ place_numbered n }
    ensures row { result.row < 64 }
    ensures back { number_of result ≡ n }
{
    Place {
        row: (n % LEVEL / 2) as u8,
        plus: n % 2 == 0,
        level: Level::ALL[n / LEVEL],
    }
}
