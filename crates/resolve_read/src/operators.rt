//! How the operators and words of a text are read.

ghost use Rattle.std.specs.Prelude.{◌≡◌, ◌∷◌, ◌||◌, false, true, List, None};
ghost use Rattle.std.specs.Option.{is_some};
ghost use Rattle.syntax_tree.specs.declared.operator.Infix.{Infix as Operator};
ghost use Rattle.syntax_tree.specs.declared.expr.Expr.{Expr};
ghost use Rattle.resolve_rules.specs.Forms as words;

use resolve_readings::{Binary, Multiplicity, Unary};
use syntax_tree::{
    Comparator, Comparison, Expr as Tree, Infix, Multiplicity as Word, Prefix, Quantifier,
};

/// A word in the terms of a root.
fn multiplicity_of(word: Word) -> Multiplicity
    ensures { result ≡ words.multiplicity_of word }
{
    match word {
        Word::Set => Multiplicity::Set,
        Word::One => Multiplicity::One,
        Word::Lone => Multiplicity::Lone,
        Word::Some => Multiplicity::Some,
    }
}

/// The word before a bound or after `in`, in the terms of a root.
pub fn word_of(word: Option<Word>) -> Option<Multiplicity>
    ensures { result ≡ words.word_of word }
{
    match word {
        None => None,
        Some(word) => Some(multiplicity_of(word)),
    }
}

/// Whether a word stands beside an arrow.
fn is_marked(before: Option<Word>, after: Option<Word>) -> bool
    ensures { result ≡ (is_some before || is_some after) }
{
    match before {
        Some(_) => true,
        None => match after {
            Some(_) => true,
            None => false,
        },
    }
}

/// An operator between sets or integers; none of one between formulas.
pub fn between(op: Infix) -> Option<Binary>
    ensures { result ≡ words.between op }
{
    match op {
        Infix::Plus => Some(Binary::Union),
        Infix::Minus => Some(Binary::Difference),
        Infix::Add => Some(Binary::Arithmetic),
        Infix::Sub => Some(Binary::Arithmetic),
        Infix::Mul => Some(Binary::Arithmetic),
        Infix::Div => Some(Binary::Arithmetic),
        Infix::Rem => Some(Binary::Arithmetic),
        Infix::Override => Some(Binary::Override),
        Infix::Intersection => Some(Binary::Intersection),
        Infix::Arrow(before, after) => Some(Binary::Arrow(is_marked(before, after))),
        Infix::Domain => Some(Binary::LeftRestrict),
        Infix::Range => Some(Binary::RightRestrict),
        _ => None,
    }
}

/// An operator before a set; none of one before a formula, and of a test.
pub fn before_set(op: Prefix) -> Option<Unary>
    ensures { result ≡ words.before_set op }
{
    match op {
        Prefix::Count => Some(Unary::Count),
        Prefix::Transpose => Some(Unary::Transpose),
        Prefix::Closure => Some(Unary::Closure),
        Prefix::ReflexiveClosure => Some(Unary::ReflexiveClosure),
        _ => None,
    }
}

/// Whether it is a multiplicity test of a set.
pub fn is_test(op: Prefix) -> bool
    ensures { result ≡ true → words.IsTest op }
{
    match op {
        Prefix::No => true,
        Prefix::Some => true,
        Prefix::Lone => true,
        Prefix::One => true,
        _ => false,
    }
}

/// Whether it is an operator before a formula.
pub fn is_logical(op: Prefix) -> bool
    ensures { result ≡ true → words.IsLogical op }
{
    match op {
        Prefix::Bang => true,
        Prefix::Not => true,
        Prefix::Always => true,
        Prefix::Eventually => true,
        Prefix::After => true,
        Prefix::Before => true,
        Prefix::Historically => true,
        Prefix::Once => true,
        _ => false,
    }
}

/// Whether it is `sum`.
pub fn is_sum(word: Quantifier) -> bool
    ensures yes { result ≡ true → words.IsSum word }
    ensures no { result ≡ false → words.IsSum word → ⊥ }
{
    match word {
        Quantifier::Sum => true,
        _ => false,
    }
}

/// What compares two sets or integers.
pub fn compared_by(op: Comparison) -> Binary
    ensures { result ≡ words.compared_by op.comparator op.word }
{
    match op.comparator {
        Comparator::In => Binary::In(word_of(op.word)),
        Comparator::Equal => Binary::Equal,
        _ => Binary::Order,
    }
}

/// Whether the operators of a row stand between formulas.
pub fn is_logical_row(links: &[(Infix, Tree)]) -> bool
    ensures { result ≡ true → (op : Operator) × (a : Expr) × (rest : List (Operator × Expr))
        × (links.now ≡ (op, a) ∷ rest) × (words.between op ≡ None) }
{
    match links {
        [] => false,
        [link, ..] => match between(link.0) {
            None => true,
            Some(_) => false,
        },
    }
}
