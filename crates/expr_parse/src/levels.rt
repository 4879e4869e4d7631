/// How strong the operators of a part of an expression are at least.
#[derive(Clone, Copy, Debug, PartialEq, Eq)]
pub enum Level {
    /// OR, and all that is stronger.
    Whole,
    /// NOT.
    Negation,
    /// `+` and `-`.
    Sum,
    /// Unary minus.
    Sign,
}
