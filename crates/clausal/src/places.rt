use atoms::levels::Level;

/// A row of a rule with a sign, at a level.
#[derive(Clone, Copy, PartialEq, Eq, Debug)]
pub struct Place {
    pub row: u8,
    /// Plus, or minus: the row's negation.
    pub plus: bool,
    pub level: Level,
}
