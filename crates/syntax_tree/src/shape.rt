//! What a tree shows to the node above it: all that the rules on levels ask of an operand.

/// What a tree shows to the node above it.
#[derive(Clone, Copy, Debug, PartialEq, Eq)]
pub struct Shape {
    /// The level of its form: 0 for a form with variables or a `let`, 19 for a primary.
    pub level: u8,
    /// Whether it and all its parts keep the rules.
    pub right: bool,
    /// Whether its last token lies in the body of a level 0 form written with `|`, outside
    /// brackets.
    pub is_open: bool,
    /// Whether it, or an operand in it outside brackets, is a level 0 form.
    pub has_zero: bool,
    /// Whether it, or the last operand with which it ends, is an implication without `else`.
    pub is_bare: bool,
    /// Whether its first token is `-`.
    pub has_minus: bool,
    pub is_block: bool,
    /// Whether it is a level 0 form that begins with `some`, `lone` or `one`.
    pub is_worded: bool,
}
