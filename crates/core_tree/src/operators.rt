//! The operators of formulas and expressions, with what each asks or gives.

/// How many tuples a bound, an end of an arrow or a sig allows (Alloy reference, "multiplicities").
#[derive(Clone, Copy, Debug, PartialEq, Eq, Drop)]
pub enum Multiplicity {
    /// `set`: any number. This is also an arrow's end without a word.
    Set,
    /// `one`: just one.
    One,
    /// `lone`: at most one.
    Lone,
    /// `some`: at least one.
    Some,
}

/// What a test of a set, or a quantifier other than `all`, asks of a number of tuples.
#[derive(Clone, Copy, Debug, PartialEq, Eq, Drop)]
pub enum Quantity {
    /// `some`: at least one.
    Some,
    /// `no`: none.
    No,
    /// `one`: just one.
    One,
    /// `lone`: at most one.
    Lone,
}

/// A comparison of two integers.
#[derive(Clone, Copy, Debug, PartialEq, Eq, Drop)]
pub enum Comparison {
    /// The two integers are equal. A model's `=` compares sets: this form is made by later passes.
    Equal,
    /// `<`.
    Less,
    /// `=<` or `<=`.
    AtMost,
    /// `>`.
    Greater,
    /// `>=`.
    AtLeast,
}

/// A connective of two formulas. Conjunction is a list, and `not` stands alone.
#[derive(Clone, Copy, Debug, PartialEq, Eq, Drop)]
pub enum Connective {
    /// `or`.
    Or,
    /// `implies`.
    Implies,
    /// `iff`.
    Iff,
}

/// A temporal operator on one formula.
#[derive(Clone, Copy, Debug, PartialEq, Eq, Drop)]
pub enum TemporalUnary {
    /// `after`.
    After,
    /// `always`.
    Always,
    /// `eventually`.
    Eventually,
    /// `before`.
    Before,
    /// `historically`.
    Historically,
    /// `once`.
    Once,
}

/// A temporal operator on two formulas.
#[derive(Clone, Copy, Debug, PartialEq, Eq, Drop)]
pub enum TemporalBinary {
    /// `until`.
    Until,
    /// `releases`.
    Releases,
    /// `since`.
    Since,
    /// `triggered`.
    Triggered,
    /// `;`: the first formula now and the second at the next position.
    Then,
}

/// An operator on two relations, the product aside.
#[derive(Clone, Copy, Debug, PartialEq, Eq, Drop)]
pub enum RelationOp {
    /// `+`.
    Union,
    /// `-`.
    Difference,
    /// `&`.
    Intersection,
    /// `.`, and a box `b[a]` as `a . b`.
    Join,
    /// `++`.
    Override,
    /// `<:`, whose left side restricts.
    LeftRestrict,
    /// `:>`, whose right side restricts.
    RightRestrict,
}

/// An operator on one relation of two columns.
#[derive(Clone, Copy, Debug, PartialEq, Eq, Drop)]
pub enum UnaryRelation {
    /// `~`.
    Transpose,
    /// `^`.
    Closure,
    /// `*`.
    ReflexiveClosure,
}

/// An operator on two integers.
#[derive(Clone, Copy, Debug, PartialEq, Eq, Drop)]
pub enum IntOp {
    /// `fun/add`.
    Add,
    /// `fun/sub`.
    Sub,
    /// `fun/mul`.
    Mul,
    /// `fun/div`.
    Div,
    /// `fun/rem`.
    Rem,
}
