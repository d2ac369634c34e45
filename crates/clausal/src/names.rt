/// What an atom from 16 on stands for at its level.
// `Free` is a case beside the others and no Option around them: definitions ask in one step what an atom stands for.
#[derive(Clone, Copy, PartialEq, Eq, Debug)]
pub enum Name {
    /// Nothing yet.
    Free,
    /// A row of a rule, by their numbers, with a sign, plus or minus.
    Place { rule: u8, row: u8, plus: bool },
    /// A rule, by its number.
    Handle(u8),
}
