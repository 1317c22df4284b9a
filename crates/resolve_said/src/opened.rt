//! Opens a part of a resolved tree, where it is what an operator of the text makes of its operands.

ghost use Rattle.std.specs.Prelude.{◌≡◌, ◌∷◌, map, IfSome, Some, None};
ghost use Rattle.core_tree.specs.Trees.{claim_list, claim_of, connect, equal, every, prime, temporal_pair, term_of, variable_list, variable_of};
ghost use Rattle.core_tree.specs.declared.operators.Connective.TheVariants as connective;
ghost use Rattle.core_tree.specs.declared.operators.TemporalBinary.TheVariants as times;
ghost use Rattle.syntax_tree.specs.declared.operator.Comparator.TheVariants as comparator;
ghost use Rattle.syntax_tree.specs.declared.operator.Quantifier.TheVariants as quantifier;
ghost use Rattle.resolve_said.specs.Operators.{Chooses, Collects, ComparesBy, Compares, Lets, Links, Prefixes, Quantifies, a_formula, a_set};
ghost use Rattle.resolve_said.specs.Parts.{said_by};

use crate::operators::{
    has_arrow_word, has_connective, has_integer, has_order, has_quantity, has_relation, has_test,
    has_time, has_times, has_turn, has_word, has_words, is_count, is_not, is_plain,
};
use crate::part::Part;
use core_tree::{Connective, Expr, Formula, TemporalBinary, Variable};
use syntax_tree::{Comparator, Comparison, Infix, Multiplicity as Word, Prefix, Quantifier};

/// Two parts.
#[derive(Clone, Copy)]
pub struct Two<'a> {
    pub left: Part<'a>,
    pub right: Part<'a>,
}

/// Two formulas.
#[derive(Clone, Copy)]
pub struct Formulas<'a> {
    pub first: &'a Formula,
    pub second: &'a Formula,
}

/// The sides of a comparison.
#[derive(Clone, Copy)]
pub struct Sides<'a> {
    pub left: &'a Expr,
    pub right: &'a Expr,
}

/// A choice between two parts.
#[derive(Clone, Copy)]
pub struct Choice<'a> {
    pub condition: &'a Formula,
    pub first: Part<'a>,
    pub second: Part<'a>,
}

/// A name of a `let` with its value, and what stands under it.
#[derive(Clone, Copy)]
pub struct Under<'a> {
    pub number: u32,
    pub value: &'a Expr,
    pub body: Part<'a>,
}

/// Variables with what stands under them.
#[derive(Clone, Copy)]
pub struct Ranged<'a> {
    pub variables: &'a [Variable],
    pub body: Part<'a>,
}

/// The operand in a formula.
fn formula_operand<'a>(op: Prefix, formula: &'a Formula) -> Option<Part<'a>>
    ensures { IfSome result (λ r. Prefixes op (said_by r) (a_formula (claim_of formula.now))) }
{
    match formula {
        Formula::Not(inner) => {
            if !is_not(op) {
                return None;
            }
            Some(Part::Formula(&**inner))
        }
        Formula::Temporal(time, inner) => {
            if !has_time(op, *time) {
                return None;
            }
            Some(Part::Formula(&**inner))
        }
        Formula::Test(quantity, inner) => {
            if !has_test(op, *quantity) {
                return None;
            }
            Some(Part::Set(&**inner))
        }
        _ => None,
    }
}

/// The operand in a set.
fn set_operand<'a>(op: Prefix, expr: &'a Expr) -> Option<Part<'a>>
    ensures { IfSome result (λ r. Prefixes op (said_by r) (a_set (term_of expr.now))) }
{
    match expr {
        Expr::Count(inner) => {
            if !is_count(op) {
                return None;
            }
            Some(Part::Set(&**inner))
        }
        Expr::Unary(turn, inner) => {
            if !has_turn(op, *turn) {
                return None;
            }
            Some(Part::Set(&**inner))
        }
        _ => None,
    }
}

/// The operand behind an operator.
pub fn operand<'a>(op: Prefix, part: &Part<'a>) -> Option<Part<'a>>
    ensures { IfSome result (λ r. Prefixes op (said_by r) (said_by part.now)) }
{
    match part {
        Part::Set(expr) => set_operand(op, *expr),
        Part::Formula(formula) => formula_operand(op, *formula),
        Part::Call(_, _) => None,
    }
}

/// The operands of an arrow with these words.
fn arrow_operands<'a>(op: Infix, expr: &'a Expr) -> Option<Two<'a>>
    ensures { IfSome result (λ t. Links op (said_by t.left) (said_by t.right)
        (a_set (term_of expr.now))) }
{
    match expr {
        Expr::Product(a, before, after, b) => match op {
            Infix::Arrow(first, second) => {
                if !has_arrow_word(first, *before) {
                    return None;
                }
                if !has_arrow_word(second, *after) {
                    return None;
                }
                Some(Two {
                    left: Part::Set(&**a),
                    right: Part::Set(&**b),
                })
            }
            _ => None,
        },
        _ => None,
    }
}

/// The operands in a set.
fn set_operands<'a>(op: Infix, expr: &'a Expr) -> Option<Two<'a>>
    ensures { IfSome result (λ t. Links op (said_by t.left) (said_by t.right)
        (a_set (term_of expr.now))) }
{
    match expr {
        Expr::Combine(relation, a, b) => {
            if !has_relation(op, *relation) {
                return None;
            }
            Some(Two {
                left: Part::Set(&**a),
                right: Part::Set(&**b),
            })
        }
        Expr::Arithmetic(integer, a, b) => {
            if !has_integer(op, *integer) {
                return None;
            }
            Some(Two {
                left: Part::Set(&**a),
                right: Part::Set(&**b),
            })
        }
        _ => arrow_operands(op, expr),
    }
}

/// The operands in a formula.
fn formula_operands<'a>(op: Infix, formula: &'a Formula) -> Option<Two<'a>>
    ensures { IfSome result (λ t. Links op (said_by t.left) (said_by t.right)
        (a_formula (claim_of formula.now))) }
{
    match formula {
        Formula::Connect(connective, a, b) => {
            if !has_connective(op, *connective) {
                return None;
            }
            Some(Two {
                left: Part::Formula(&**a),
                right: Part::Formula(&**b),
            })
        }
        Formula::TemporalPair(times, a, b) => {
            if !has_times(op, *times) {
                return None;
            }
            Some(Two {
                left: Part::Formula(&**a),
                right: Part::Formula(&**b),
            })
        }
        _ => None,
    }
}

/// The operands on both sides of an operator.
pub fn operands<'a>(op: Infix, part: &Part<'a>) -> Option<Two<'a>>
    ensures { IfSome result (λ t. Links op (said_by t.left) (said_by t.right)
        (said_by part.now)) }
{
    match part {
        Part::Set(expr) => set_operands(op, *expr),
        Part::Formula(formula) => formula_operands(op, *formula),
        Part::Call(_, _) => None,
    }
}

/// The operand of `'`.
pub fn primed<'a>(part: &Part<'a>) -> Option<&'a Expr>
    ensures { IfSome result (λ e. said_by part.now ≡ a_set (prime (term_of e.now))) }
{
    match part {
        Part::Set(expr) => match *expr {
            Expr::Prime(inner) => Some(&**inner),
            _ => None,
        },
        _ => None,
    }
}

/// The formulas of a conjunction.
#[tactic(auto, using(core_tree::proofs::RowLemmas::every_is))]
pub fn conjuncts<'a>(part: &Part<'a>) -> Option<&'a [Formula]>
    ensures { IfSome result (λ fs. said_by part.now
        ≡ a_formula (every (claim_list (map claim_of fs.now)))) }
{
    match part {
        Part::Formula(formula) => match *formula {
            Formula::Every(list) => Some(list.as_slice()),
            _ => None,
        },
        _ => None,
    }
}

/// The formulas of a conjunction that isn't empty.
#[derive(Clone, Copy)]
pub struct Begun<'a> {
    pub start: &'a Formula,
    pub others: &'a [Formula],
}

/// The first formula of a conjunction, and the others.
pub fn first_conjunct<'a>(part: &Part<'a>) -> Option<Begun<'a>>
    ensures { IfSome result (λ t. said_by part.now ≡ a_formula
        (every (claim_list (claim_of t.start.now ∷ map claim_of t.others.now)))) }
{
    let all = conjuncts(part)?;
    match all {
        [] => None,
        [start, others @ ..] => Some(Begun { start, others }),
    }
}

/// Whether it is a conjunction.
pub fn is_conjunction(part: &Part<'_>) -> bool {
    match part {
        Part::Formula(formula) => matches!(*formula, Formula::Every(_)),
        _ => false,
    }
}

/// The two formulas of an implication.
pub fn implied<'a>(part: &Part<'a>) -> Option<Formulas<'a>>
    ensures { IfSome result (λ t. said_by part.now ≡ a_formula
        (connect connective.Implies (claim_of t.first.now) (claim_of t.second.now))) }
{
    match part {
        Part::Formula(formula) => match *formula {
            Formula::Connect(Connective::Implies, a, b) => Some(Formulas {
                first: &**a,
                second: &**b,
            }),
            _ => None,
        },
        _ => None,
    }
}

/// The two formulas on both sides of `;`.
pub fn followed<'a>(part: &Part<'a>) -> Option<Formulas<'a>>
    ensures { IfSome result (λ t. said_by part.now ≡ a_formula
        (temporal_pair times.Then (claim_of t.first.now) (claim_of t.second.now))) }
{
    match part {
        Part::Formula(formula) => match *formula {
            Formula::TemporalPair(TemporalBinary::Then, a, b) => Some(Formulas {
                first: &**a,
                second: &**b,
            }),
            _ => None,
        },
        _ => None,
    }
}

/// A choice by a condition.
pub fn chosen<'a>(part: &Part<'a>) -> Option<Choice<'a>>
    ensures { IfSome result (λ t. Chooses (claim_of t.condition.now) (said_by t.first)
        (said_by t.second) (said_by part.now)) }
{
    match part {
        Part::Set(expr) => match *expr {
            Expr::Choose(condition, a, b) => Some(Choice {
                condition: &**condition,
                first: Part::Set(&**a),
                second: Part::Set(&**b),
            }),
            _ => None,
        },
        Part::Formula(formula) => match *formula {
            Formula::Choose(condition, a, b) => Some(Choice {
                condition: &**condition,
                first: Part::Formula(&**a),
                second: Part::Formula(&**b),
            }),
            _ => None,
        },
        Part::Call(_, _) => None,
    }
}

/// What stands under the name of a `let`.
pub fn under_let<'a>(part: &Part<'a>) -> Option<Under<'a>>
    ensures { IfSome result (λ u. Lets u.number (term_of u.value.now) (said_by u.body)
        (said_by part.now)) }
{
    match part {
        Part::Set(expr) => match *expr {
            Expr::Let(number, value, body) => Some(Under {
                number: *number,
                value: &**value,
                body: Part::Set(&**body),
            }),
            _ => None,
        },
        Part::Formula(formula) => match *formula {
            Formula::Let(number, value, body) => Some(Under {
                number: *number,
                value: &**value,
                body: Part::Formula(&**body),
            }),
            _ => None,
        },
        Part::Call(_, _) => None,
    }
}

/// The sides of `in` with a word behind it.
fn fitting<'a>(word: Word, formula: &'a Formula) -> Option<Sides<'a>>
    ensures { IfSome result (λ s. Compares (term_of s.left.now) (term_of s.right.now) comparator.In
        (Some word) (claim_of formula.now)) }
{
    match formula {
        Formula::Within(a, found, b) => {
            if !has_word(word, *found) {
                return None;
            }
            Some(Sides {
                left: &**a,
                right: &**b,
            })
        }
        _ => None,
    }
}

/// The sides of `in`, where words stand at arrows on its right.
fn fitting_arrows<'a>(formula: &'a Formula) -> Option<Sides<'a>>
    ensures { IfSome result (λ s. Compares (term_of s.left.now) (term_of s.right.now) comparator.In
        None (claim_of formula.now)) }
{
    match formula {
        Formula::Within(a, found, b) => {
            if !has_arrow_word(None, *found) {
                return None;
            }
            let left = &**a;
            let right = &**b;
            if !has_words(right) {
                return None;
            }
            Some(Sides { left, right })
        }
        _ => None,
    }
}

/// The sides of `in`, where no word stands on its right.
fn plainly_inside<'a>(formula: &'a Formula) -> Option<Sides<'a>>
    ensures { IfSome result (λ s. Compares (term_of s.left.now) (term_of s.right.now) comparator.In
        None (claim_of formula.now)) }
{
    match formula {
        Formula::Inside(a, b) => {
            let left = &**a;
            let right = &**b;
            if has_words(right) {
                return None;
            }
            Some(Sides { left, right })
        }
        _ => None,
    }
}

/// The sides of `in`, which has this word behind it.
fn inside<'a>(word: Option<Word>, formula: &'a Formula) -> Option<Sides<'a>>
    ensures { IfSome result (λ s. Compares (term_of s.left.now) (term_of s.right.now) comparator.In
        word (claim_of formula.now)) }
{
    match word {
        Some(word) => fitting(word, formula),
        None => match formula {
            Formula::Within(_, _, _) => fitting_arrows(formula),
            _ => plainly_inside(formula),
        },
    }
}

/// The sides of `=`.
fn equal<'a>(formula: &'a Formula) -> Option<Sides<'a>>
    ensures { IfSome result (λ s. claim_of formula.now
        ≡ equal (term_of s.left.now) (term_of s.right.now)) }
{
    match formula {
        Formula::Equal(a, b) => Some(Sides {
            left: &**a,
            right: &**b,
        }),
        _ => None,
    }
}

/// The sides of an order of integers.
fn ordered<'a>(by: Comparator, word: Option<Word>, formula: &'a Formula) -> Option<Sides<'a>>
    ensures { IfSome result (λ s. Compares (term_of s.left.now) (term_of s.right.now) by word
        (claim_of formula.now)) }
{
    match formula {
        Formula::Compare(order, a, b) => {
            if !has_order(by, *order) {
                return None;
            }
            Some(Sides {
                left: &**a,
                right: &**b,
            })
        }
        _ => None,
    }
}

/// The sides of a comparison that isn't negated.
fn plain_sides<'a>(by: Comparator, word: Option<Word>, formula: &'a Formula) -> Option<Sides<'a>>
    ensures { IfSome result (λ s. Compares (term_of s.left.now) (term_of s.right.now) by word
        (claim_of formula.now)) }
{
    match by {
        Comparator::In => inside(word, formula),
        Comparator::Equal => {
            let sides = equal(formula)?;
            Some(sides)
        }
        _ => ordered(by, word, formula),
    }
}

/// The sides of a negated comparison.
fn negated_sides<'a>(comparison: Comparison, formula: &'a Formula) -> Option<Sides<'a>>
    ensures { IfSome result (λ s. ComparesBy comparison (term_of s.left.now) (term_of s.right.now)
        (a_formula (claim_of formula.now))) }
{
    if is_plain(comparison.negation) {
        let sides = plain_sides(comparison.comparator, comparison.word, formula)?;
        return Some(sides);
    }
    match formula {
        Formula::Not(inner) => {
            let sides = plain_sides(comparison.comparator, comparison.word, &**inner)?;
            Some(sides)
        }
        _ => None,
    }
}

/// The sides of a comparison.
pub fn compared<'a>(comparison: Comparison, part: &Part<'a>) -> Option<Sides<'a>>
    ensures { IfSome result (λ s. ComparesBy comparison (term_of s.left.now) (term_of s.right.now)
        (said_by part.now)) }
{
    match part {
        Part::Formula(formula) => negated_sides(comparison, *formula),
        _ => None,
    }
}

/// The variables of a comprehension, and its formula.
pub fn comprehended<'a>(part: &Part<'a>) -> Option<Ranged<'a>>
    ensures { IfSome result (λ r. Collects (variable_list (map variable_of r.variables.now))
        (said_by r.body) (said_by part.now)) }
{
    match part {
        Part::Set(expr) => match *expr {
            Expr::Comprehension(list, body) => Some(Ranged {
                variables: list.as_slice(),
                body: Part::Formula(&**body),
            }),
            _ => None,
        },
        _ => None,
    }
}

/// The variables of a sum, and its expression.
fn summed<'a>(part: &Part<'a>) -> Option<Ranged<'a>>
    ensures { IfSome result (λ r. Quantifies (variable_list (map variable_of r.variables.now))
        quantifier.Sum (said_by r.body) (said_by part.now)) }
{
    match part {
        Part::Set(expr) => match *expr {
            Expr::Sum(list, body) => Some(Ranged {
                variables: list.as_slice(),
                body: Part::Set(&**body),
            }),
            _ => None,
        },
        _ => None,
    }
}

/// The variables of `all`, and its formula.
fn for_all<'a>(part: &Part<'a>) -> Option<Ranged<'a>>
    ensures { IfSome result (λ r. Quantifies (variable_list (map variable_of r.variables.now))
        quantifier.All (said_by r.body) (said_by part.now)) }
{
    match part {
        Part::Formula(formula) => match *formula {
            Formula::ForAll(list, body) => Some(Ranged {
                variables: list.as_slice(),
                body: Part::Formula(&**body),
            }),
            _ => None,
        },
        _ => None,
    }
}

/// The variables of another quantifier, and its formula.
fn counted<'a>(word: Quantifier, part: &Part<'a>) -> Option<Ranged<'a>>
    ensures { IfSome result (λ r. Quantifies (variable_list (map variable_of r.variables.now))
        word (said_by r.body) (said_by part.now)) }
{
    match part {
        Part::Formula(formula) => match *formula {
            Formula::Counted(quantity, list, body) => {
                if !has_quantity(word, *quantity) {
                    return None;
                }
                Some(Ranged {
                    variables: list.as_slice(),
                    body: Part::Formula(&**body),
                })
            }
            _ => None,
        },
        _ => None,
    }
}

/// The variables of a quantifier, and what stands under them.
pub fn quantified<'a>(word: Quantifier, part: &Part<'a>) -> Option<Ranged<'a>>
    ensures { IfSome result (λ r. Quantifies (variable_list (map variable_of r.variables.now))
        word (said_by r.body) (said_by part.now)) }
{
    match word {
        Quantifier::All => for_all(part),
        Quantifier::Sum => summed(part),
        _ => counted(word, part),
    }
}
