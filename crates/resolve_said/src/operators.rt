//! Operators and words of the text in the terms of the model.

ghost use Rattle.std.specs.Prelude.{◌≡◌, true, Some};
ghost use Rattle.core_tree.specs.Trees.{term_of};
ghost use Rattle.resolve_said.specs.Operators as words;

use core_tree::{
    Comparison, Connective, Expr, IntOp, Multiplicity, Quantity, RelationOp, TemporalBinary,
    TemporalUnary, UnaryRelation,
};
use syntax_tree::{Comparator, Infix, Multiplicity as Word, Negation, Prefix, Quantifier};

/// Whether it is `not`.
pub fn is_not(op: Prefix) -> bool
    ensures { result ≡ words.is_not op }
{
    match op {
        Prefix::Bang => true,
        Prefix::Not => true,
        _ => false,
    }
}

/// Whether it is `#`.
pub fn is_count(op: Prefix) -> bool
    ensures { result ≡ words.is_count op }
{
    match op {
        Prefix::Count => true,
        _ => false,
    }
}

fn time_of(op: Prefix) -> Option<TemporalUnary>
    ensures { result ≡ words.time_of op }
{
    match op {
        Prefix::Always => Some(TemporalUnary::Always),
        Prefix::Eventually => Some(TemporalUnary::Eventually),
        Prefix::After => Some(TemporalUnary::After),
        Prefix::Before => Some(TemporalUnary::Before),
        Prefix::Historically => Some(TemporalUnary::Historically),
        Prefix::Once => Some(TemporalUnary::Once),
        _ => None,
    }
}

fn test_of(op: Prefix) -> Option<Quantity>
    ensures { result ≡ words.test_of op }
{
    match op {
        Prefix::No => Some(Quantity::No),
        Prefix::Some => Some(Quantity::Some),
        Prefix::Lone => Some(Quantity::Lone),
        Prefix::One => Some(Quantity::One),
        _ => None,
    }
}

fn turn_of(op: Prefix) -> Option<UnaryRelation>
    ensures { result ≡ words.turn_of op }
{
    match op {
        Prefix::Transpose => Some(UnaryRelation::Transpose),
        Prefix::Closure => Some(UnaryRelation::Closure),
        Prefix::ReflexiveClosure => Some(UnaryRelation::ReflexiveClosure),
        _ => None,
    }
}

/// Whether it is this temporal operator.
pub fn has_time(op: Prefix, wanted: TemporalUnary) -> bool
    ensures { result ≡ true → words.time_of op ≡ Some wanted }
{
    match time_of(op) {
        None => false,
        Some(found) => found == wanted,
    }
}

/// Whether it is this test of a set.
pub fn has_test(op: Prefix, wanted: Quantity) -> bool
    ensures { result ≡ true → words.test_of op ≡ Some wanted }
{
    match test_of(op) {
        None => false,
        Some(found) => found == wanted,
    }
}

/// Whether it is this operator on a relation.
pub fn has_turn(op: Prefix, wanted: UnaryRelation) -> bool
    ensures { result ≡ true → words.turn_of op ≡ Some wanted }
{
    match turn_of(op) {
        None => false,
        Some(found) => found == wanted,
    }
}

fn word_of(word: Word) -> Multiplicity
    ensures { result ≡ words.word_of word }
{
    match word {
        Word::Set => Multiplicity::Set,
        Word::One => Multiplicity::One,
        Word::Lone => Multiplicity::Lone,
        Word::Some => Multiplicity::Some,
    }
}

fn arrow_word(word: Option<Word>) -> Multiplicity
    ensures { result ≡ words.arrow_word word }
{
    match word {
        None => Multiplicity::Set,
        Some(word) => word_of(word),
    }
}

/// Whether it is the multiplicity of this word.
pub fn has_word(word: Word, wanted: Multiplicity) -> bool
    ensures { result ≡ true → words.word_of word ≡ wanted }
{
    word_of(word) == wanted
}

/// Whether it is the multiplicity at an arrow with this word, or without one.
pub fn has_arrow_word(word: Option<Word>, wanted: Multiplicity) -> bool
    ensures { result ≡ true → words.arrow_word word ≡ wanted }
{
    arrow_word(word) == wanted
}

fn relation_of(op: Infix) -> Option<RelationOp>
    ensures { result ≡ words.relation_of op }
{
    match op {
        Infix::Plus => Some(RelationOp::Union),
        Infix::Minus => Some(RelationOp::Difference),
        Infix::Override => Some(RelationOp::Override),
        Infix::Intersection => Some(RelationOp::Intersection),
        Infix::Domain => Some(RelationOp::LeftRestrict),
        Infix::Range => Some(RelationOp::RightRestrict),
        _ => None,
    }
}

fn integer_of(op: Infix) -> Option<IntOp>
    ensures { result ≡ words.integer_of op }
{
    match op {
        Infix::Add => Some(IntOp::Add),
        Infix::Sub => Some(IntOp::Sub),
        Infix::Mul => Some(IntOp::Mul),
        Infix::Div => Some(IntOp::Div),
        Infix::Rem => Some(IntOp::Rem),
        _ => None,
    }
}

fn connective_of(op: Infix) -> Option<Connective>
    ensures { result ≡ words.connective_of op }
{
    match op {
        Infix::OrOr => Some(Connective::Or),
        Infix::Or => Some(Connective::Or),
        Infix::Equivalence => Some(Connective::Iff),
        Infix::Iff => Some(Connective::Iff),
        _ => None,
    }
}

fn times_of(op: Infix) -> Option<TemporalBinary>
    ensures { result ≡ words.times_of op }
{
    match op {
        Infix::Until => Some(TemporalBinary::Until),
        Infix::Releases => Some(TemporalBinary::Releases),
        Infix::Since => Some(TemporalBinary::Since),
        Infix::Triggered => Some(TemporalBinary::Triggered),
        _ => None,
    }
}

/// Whether it is `and`.
pub fn is_and(op: Infix) -> bool
    ensures { result ≡ words.is_and op }
{
    match op {
        Infix::AndAnd => true,
        Infix::And => true,
        _ => false,
    }
}

/// Whether it is this operator between relations.
pub fn has_relation(op: Infix, wanted: RelationOp) -> bool
    ensures { result ≡ true → words.relation_of op ≡ Some wanted }
{
    match relation_of(op) {
        None => false,
        Some(found) => found == wanted,
    }
}

/// Whether it is this operator between integers.
pub fn has_integer(op: Infix, wanted: IntOp) -> bool
    ensures { result ≡ true → words.integer_of op ≡ Some wanted }
{
    match integer_of(op) {
        None => false,
        Some(found) => found == wanted,
    }
}

/// Whether it is this connective.
pub fn has_connective(op: Infix, wanted: Connective) -> bool
    ensures { result ≡ true → words.connective_of op ≡ Some wanted }
{
    match connective_of(op) {
        None => false,
        Some(found) => found == wanted,
    }
}

/// Whether it is this temporal operator.
pub fn has_times(op: Infix, wanted: TemporalBinary) -> bool
    ensures { result ≡ true → words.times_of op ≡ Some wanted }
{
    match times_of(op) {
        None => false,
        Some(found) => found == wanted,
    }
}

fn order_of(by: Comparator) -> Option<Comparison>
    ensures { result ≡ words.order_of by }
{
    match by {
        Comparator::Less => Some(Comparison::Less),
        Comparator::Greater => Some(Comparison::Greater),
        Comparator::EqualLess => Some(Comparison::AtMost),
        Comparator::LessEqual => Some(Comparison::AtMost),
        Comparator::GreaterEqual => Some(Comparison::AtLeast),
        _ => None,
    }
}

/// Whether it is this order of integers.
pub fn has_order(by: Comparator, wanted: Comparison) -> bool
    ensures { result ≡ true → words.order_of by ≡ Some wanted }
{
    match order_of(by) {
        None => false,
        Some(found) => found == wanted,
    }
}

/// Whether nothing is negated.
pub fn is_plain(negation: Negation) -> bool
    ensures { result ≡ words.is_plain negation }
{
    match negation {
        Negation::Plain => true,
        _ => false,
    }
}

fn quantity_of(word: Quantifier) -> Option<Quantity>
    ensures { result ≡ words.quantity_of word }
{
    match word {
        Quantifier::No => Some(Quantity::No),
        Quantifier::Some => Some(Quantity::Some),
        Quantifier::Lone => Some(Quantity::Lone),
        Quantifier::One => Some(Quantity::One),
        _ => None,
    }
}

/// Whether it is the quantifier that asks this.
pub fn has_quantity(word: Quantifier, wanted: Quantity) -> bool
    ensures { result ≡ true → words.quantity_of word ≡ Some wanted }
{
    match quantity_of(word) {
        None => false,
        Some(found) => found == wanted,
    }
}

fn is_set(word: Multiplicity) -> bool
    ensures { result ≡ words.is_set word }
{
    match word {
        Multiplicity::Set => true,
        _ => false,
    }
}

/// Whether a multiplicity other than `set` stands at an arrow, with nothing but arrows above it.
pub fn has_words(tree: &Expr) -> bool
    ensures { result ≡ words.has_words (term_of tree.now) }
{
    match tree {
        Expr::Product(left, first, second, right) => {
            !(is_set(*first) && is_set(*second)) || (has_words(left) || has_words(right))
        }
        _ => false,
    }
}
