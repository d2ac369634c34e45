ghost use Rattle.std.specs.Prelude.{◌≡◌};
ghost use Rattle.clausal.specs.Clausal.{shape};

use modal::row::Row;

/// What a row is under a sign, over the numbers of the rows that it leads to.
#[derive(Clone, Copy, PartialEq, Eq, Debug)]
pub enum Shape {
    /// A row that takes no name.
    Plain,
    /// Both rows, with the sign.
    Both(u8, u8),
    /// One of the two.
    Either(u8, u8),
    /// The row at every successor.
    All(u8),
    /// The row at some successor.
    One(u8),
}

impl Shape {
    /// The shape of the row: minus swaps and with or, box with diamond.
    pub fn of(row: Row, plus: bool) -> Shape
        ensures { result ≡ shape row plus }
    {
        match (row, plus) {
            (Row::False | Row::True | Row::Letter(_) | Row::Not(_), _) => Shape::Plain,
            (Row::And(c, e), true) | (Row::Or(c, e), false) => Shape::Both(c, e),
            (Row::And(c, e), false) | (Row::Or(c, e), true) => Shape::Either(c, e),
            (Row::Box(c), true) | (Row::Diamond(c), false) => Shape::All(c),
            (Row::Box(c), false) | (Row::Diamond(c), true) => Shape::One(c),
        }
    }
}
