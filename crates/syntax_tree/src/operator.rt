//! The operators, words and constants of expressions, each as it can be written.

/// A word that stands for a set by itself.
#[derive(Clone, Copy, Debug, PartialEq, Eq)]
pub enum Constant {
    This,
    Univ,
    Iden,
    None,
    Int,
    /// `String`, the set of all literals
    String,
}

/// The word that begins a form with variables.
#[derive(Clone, Copy, Debug, PartialEq, Eq)]
pub enum Quantifier {
    All,
    No,
    Some,
    Lone,
    One,
    Sum,
}

/// A multiplicity word in a bound, an arrow or on the right of `in`.
#[derive(Clone, Copy, Debug, PartialEq, Eq)]
pub enum Multiplicity {
    Set,
    One,
    Lone,
    Some,
}

/// An operator before its operand.
#[derive(Clone, Copy, Debug, PartialEq, Eq)]
pub enum Prefix {
    /// `!`
    Bang,
    /// `not`
    Not,
    Always,
    Eventually,
    After,
    Before,
    Historically,
    Once,
    No,
    Some,
    Lone,
    One,
    /// `#`
    Count,
    /// `~`
    Transpose,
    /// `^`
    Closure,
    /// `*`
    ReflexiveClosure,
}

/// An operator that groups to the left.
#[derive(Clone, Copy, Debug, PartialEq, Eq)]
pub enum Infix {
    /// `||`
    OrOr,
    /// `or`
    Or,
    /// `<=>`
    Equivalence,
    /// `iff`
    Iff,
    /// `&&`
    AndAnd,
    /// `and`
    And,
    Until,
    Releases,
    Since,
    Triggered,
    /// `+`
    Plus,
    /// `-`
    Minus,
    /// `fun/add`
    Add,
    /// `fun/sub`
    Sub,
    /// `fun/mul`
    Mul,
    /// `fun/div`
    Div,
    /// `fun/rem`
    Rem,
    /// `++`
    Override,
    /// `&`
    Intersection,
    /// `->`, with the multiplicity words before and after it.
    Arrow(Option<Multiplicity>, Option<Multiplicity>),
    /// `<:`
    Domain,
    /// `:>`
    Range,
}

/// What a comparison compares by.
#[derive(Clone, Copy, Debug, PartialEq, Eq)]
pub enum Comparator {
    In,
    Equal,
    Less,
    Greater,
    /// `=<`
    EqualLess,
    /// `<=`
    LessEqual,
    GreaterEqual,
}

/// How a comparison is negated.
#[derive(Clone, Copy, Debug, PartialEq, Eq)]
pub enum Negation {
    Plain,
    /// `!`
    Bang,
    /// `not`
    Not,
}

/// A comparison's operator, with the words round it.
#[derive(Clone, Copy, Debug, PartialEq, Eq)]
pub struct Comparison {
    pub negation: Negation,
    pub comparator: Comparator,
    /// The multiplicity word after `in`.
    pub word: Option<Multiplicity>,
}
