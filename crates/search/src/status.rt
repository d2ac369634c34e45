use atoms::clauses::Literal;

/// What a trail makes of a clause: false, or with one literal left that can make it true, or neither.
#[derive(Clone, Copy)]
pub(crate) enum Status {
    Conflict,
    Forced(Literal),
    Open,
}
