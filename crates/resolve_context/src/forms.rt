//! Puts the words and operators of the text into the terms of the model.

use core_tree::{
    Comparison, Connective, IntOp, Multiplicity, Quantity, TemporalBinary, TemporalUnary,
};
use resolve_readings::{Binary, Multiplicity as BoundWord, Unary};
use syntax_tree::{Comparator, FieldWord, Infix, Multiplicity as Word, Prefix, Quantifier};

/// Whether `private` stands among the words before a field.
pub fn has_private(words: &[FieldWord]) -> bool {
    for word in words {
        if matches!(*word, FieldWord::Private) {
            return true;
        }
    }
    false
}

pub fn bound_word(word: Option<Word>) -> Option<BoundWord> {
    match word {
        None => None,
        Some(Word::Set) => Some(BoundWord::Set),
        Some(Word::One) => Some(BoundWord::One),
        Some(Word::Lone) => Some(BoundWord::Lone),
        Some(Word::Some) => Some(BoundWord::Some),
    }
}

/// A word at an arrow: without one `set`.
pub fn arrow_word(word: Option<Word>) -> Multiplicity {
    match word {
        None | Some(Word::Set) => Multiplicity::Set,
        Some(Word::One) => Multiplicity::One,
        Some(Word::Lone) => Multiplicity::Lone,
        Some(Word::Some) => Multiplicity::Some,
    }
}

/// The multiplicity of a bound of so many columns: its word, else `one` for one column and `set`
/// for more.
pub fn bound_multiplicity(word: Option<Word>, columns: u32) -> Multiplicity {
    match word {
        None if columns == 1 => Multiplicity::One,
        word => arrow_word(word),
    }
}

/// How an infix operator is read.
#[derive(Clone, Copy, Debug, Drop)]
pub enum InfixForm {
    Relation(Binary),
    Arrow(Option<Word>, Option<Word>),
    Integer(IntOp),
    Connective(Connective),
    Conjunction,
    Temporal(TemporalBinary),
}

pub fn infix_form(operator: Infix) -> InfixForm {
    match operator {
        Infix::OrOr | Infix::Or => InfixForm::Connective(Connective::Or),
        Infix::Equivalence | Infix::Iff => InfixForm::Connective(Connective::Iff),
        Infix::AndAnd | Infix::And => InfixForm::Conjunction,
        Infix::Until => InfixForm::Temporal(TemporalBinary::Until),
        Infix::Releases => InfixForm::Temporal(TemporalBinary::Releases),
        Infix::Since => InfixForm::Temporal(TemporalBinary::Since),
        Infix::Triggered => InfixForm::Temporal(TemporalBinary::Triggered),
        Infix::Plus => InfixForm::Relation(Binary::Union),
        Infix::Minus => InfixForm::Relation(Binary::Difference),
        Infix::Add => InfixForm::Integer(IntOp::Add),
        Infix::Sub => InfixForm::Integer(IntOp::Sub),
        Infix::Mul => InfixForm::Integer(IntOp::Mul),
        Infix::Div => InfixForm::Integer(IntOp::Div),
        Infix::Rem => InfixForm::Integer(IntOp::Rem),
        Infix::Override => InfixForm::Relation(Binary::Override),
        Infix::Intersection => InfixForm::Relation(Binary::Intersection),
        Infix::Arrow(first, second) => InfixForm::Arrow(first, second),
        Infix::Domain => InfixForm::Relation(Binary::LeftRestrict),
        Infix::Range => InfixForm::Relation(Binary::RightRestrict),
    }
}

/// Whether the operator stands between formulas.
pub fn is_logical(form: InfixForm) -> bool {
    matches!(
        form,
        InfixForm::Connective(_) | InfixForm::Conjunction | InfixForm::Temporal(_)
    )
}

/// How a prefix operator is read.
#[derive(Clone, Copy, Debug, Drop)]
pub enum PrefixForm {
    Not,
    Temporal(TemporalUnary),
    Test(Quantity),
    Relation(Unary),
}

pub fn prefix_form(operator: Prefix) -> PrefixForm {
    match operator {
        Prefix::Bang | Prefix::Not => PrefixForm::Not,
        Prefix::Always => PrefixForm::Temporal(TemporalUnary::Always),
        Prefix::Eventually => PrefixForm::Temporal(TemporalUnary::Eventually),
        Prefix::After => PrefixForm::Temporal(TemporalUnary::After),
        Prefix::Before => PrefixForm::Temporal(TemporalUnary::Before),
        Prefix::Historically => PrefixForm::Temporal(TemporalUnary::Historically),
        Prefix::Once => PrefixForm::Temporal(TemporalUnary::Once),
        Prefix::No => PrefixForm::Test(Quantity::No),
        Prefix::Some => PrefixForm::Test(Quantity::Some),
        Prefix::Lone => PrefixForm::Test(Quantity::Lone),
        Prefix::One => PrefixForm::Test(Quantity::One),
        Prefix::Count => PrefixForm::Relation(Unary::Count),
        Prefix::Transpose => PrefixForm::Relation(Unary::Transpose),
        Prefix::Closure => PrefixForm::Relation(Unary::Closure),
        Prefix::ReflexiveClosure => PrefixForm::Relation(Unary::ReflexiveClosure),
    }
}

/// How a comparison is read.
#[derive(Clone, Copy, Debug, Drop)]
pub enum CompareForm {
    Sets(Binary),
    Integers(Comparison),
}

pub fn compare_form(comparator: Comparator, word: Option<Word>) -> CompareForm {
    match comparator {
        Comparator::In => CompareForm::Sets(Binary::In(bound_word(word))),
        Comparator::Equal => CompareForm::Sets(Binary::Equal),
        Comparator::Less => CompareForm::Integers(Comparison::Less),
        Comparator::Greater => CompareForm::Integers(Comparison::Greater),
        Comparator::EqualLess | Comparator::LessEqual => CompareForm::Integers(Comparison::AtMost),
        Comparator::GreaterEqual => CompareForm::Integers(Comparison::AtLeast),
    }
}

/// What a quantifier other than `all` and `sum` asks.
pub fn quantity_of(quantifier: Quantifier) -> Option<Quantity> {
    match quantifier {
        Quantifier::No => Some(Quantity::No),
        Quantifier::Some => Some(Quantity::Some),
        Quantifier::Lone => Some(Quantity::Lone),
        Quantifier::One => Some(Quantity::One),
        Quantifier::All | Quantifier::Sum => None,
    }
}
