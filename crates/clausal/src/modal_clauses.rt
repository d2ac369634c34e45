use atoms::clauses::Literal;

/// A box clause "name, then box literal", or a diamond clause "name, then diamond literal".
#[derive(Clone, Copy, PartialEq, Eq, Debug)]
pub struct ModalClause {
    pub name: u8,
    /// A literal of the next level.
    pub literal: Literal,
}
