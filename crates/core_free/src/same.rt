//! Whether two expressions are the same, apart from where their parts lie in memory.

ghost use Rattle.std.specs.Prelude.{◌≡◌, map, IsTrue};
ghost use Rattle.core_tree.specs.Trees.{term_of, claim_of, variable_of};

use core_tree::{Expr, Formula, Variable};

/// Whether two expressions are the same. Of those that aren't of the kernel only "no" is said.
#[cycle(same)]
pub fn same_expr(a: &Expr, b: &Expr) -> bool
    ensures { IsTrue result → term_of a.now ≡ term_of b.now }
{
    match a {
        Expr::Combine(op, first, second) => match b {
            Expr::Combine(other, third, fourth) => {
                *op == *other && same_expr(first, third) && same_expr(second, fourth)
            }
            _ => false,
        },
        Expr::Product(first, left, right, second) => match b {
            Expr::Product(third, before, behind, fourth) => {
                *left == *before
                    && *right == *behind
                    && same_expr(first, third)
                    && same_expr(second, fourth)
            }
            _ => false,
        },
        Expr::Unary(op, first) => match b {
            Expr::Unary(other, third) => *op == *other && same_expr(first, third),
            _ => false,
        },
        Expr::Prime(first) => match b {
            Expr::Prime(third) => same_expr(first, third),
            _ => false,
        },
        Expr::Choose(test, first, second) => match b {
            Expr::Choose(other, third, fourth) => {
                same_formula(test, other) && same_expr(first, third) && same_expr(second, fourth)
            }
            _ => false,
        },
        Expr::Comprehension(list, test) => match b {
            Expr::Comprehension(others, other) => {
                same_variables(list, others) && same_formula(test, other)
            }
            _ => false,
        },
        Expr::Count(first) => match b {
            Expr::Count(third) => same_expr(first, third),
            _ => false,
        },
        Expr::Arithmetic(op, first, second) => match b {
            Expr::Arithmetic(other, third, fourth) => {
                *op == *other && same_expr(first, third) && same_expr(second, fourth)
            }
            _ => false,
        },
        Expr::Sum(list, first) => match b {
            Expr::Sum(others, third) => same_variables(list, others) && same_expr(first, third),
            _ => false,
        },
        _ => same_leaf(a, b),
    }
}

/// Whether two expressions without parts are the same.
fn same_leaf(a: &Expr, b: &Expr) -> bool
    ensures { IsTrue result → term_of a.now ≡ term_of b.now }
{
    match a {
        Expr::Sig(sig) => match b {
            Expr::Sig(other) => *sig == *other,
            _ => false,
        },
        Expr::Field(field) => match b {
            Expr::Field(other) => *field == *other,
            _ => false,
        },
        Expr::Name(name) => match b {
            Expr::Name(other) => *name == *other,
            _ => false,
        },
        Expr::Number(number, place) => match b {
            Expr::Number(other, there) => *number == *other && *place == *there,
            _ => false,
        },
        Expr::Univ => matches!(b, Expr::Univ),
        Expr::Iden => matches!(b, Expr::Iden),
        Expr::Empty => matches!(b, Expr::Empty),
        Expr::Int => matches!(b, Expr::Int),
        _ => false,
    }
}

/// Whether two formulas are the same.
#[cycle(same)]
fn same_formula(a: &Formula, b: &Formula) -> bool
    ensures { IsTrue result → claim_of a.now ≡ claim_of b.now }
{
    match a {
        Formula::Inside(first, second) => match b {
            Formula::Inside(third, fourth) => {
                same_expr(first, third) && same_expr(second, fourth)
            }
            _ => false,
        },
        Formula::Equal(first, second) => match b {
            Formula::Equal(third, fourth) => same_expr(first, third) && same_expr(second, fourth),
            _ => false,
        },
        Formula::Within(first, word, second) => match b {
            Formula::Within(third, other, fourth) => {
                *word == *other && same_expr(first, third) && same_expr(second, fourth)
            }
            _ => false,
        },
        Formula::Test(quantity, first) => match b {
            Formula::Test(other, third) => *quantity == *other && same_expr(first, third),
            _ => false,
        },
        Formula::Compare(op, first, second) => match b {
            Formula::Compare(other, third, fourth) => {
                *op == *other && same_expr(first, third) && same_expr(second, fourth)
            }
            _ => false,
        },
        Formula::Not(first) => match b {
            Formula::Not(third) => same_formula(first, third),
            _ => false,
        },
        Formula::Every(list) => match b {
            Formula::Every(others) => same_formulas(list, others),
            _ => false,
        },
        Formula::Connect(op, first, second) => match b {
            Formula::Connect(other, third, fourth) => {
                *op == *other && same_formula(first, third) && same_formula(second, fourth)
            }
            _ => false,
        },
        Formula::Choose(test, first, second) => match b {
            Formula::Choose(other, third, fourth) => {
                same_formula(test, other)
                    && same_formula(first, third)
                    && same_formula(second, fourth)
            }
            _ => false,
        },
        Formula::ForAll(list, first) => match b {
            Formula::ForAll(others, third) => {
                same_variables(list, others) && same_formula(first, third)
            }
            _ => false,
        },
        Formula::Temporal(op, first) => match b {
            Formula::Temporal(other, third) => *op == *other && same_formula(first, third),
            _ => false,
        },
        Formula::TemporalPair(op, first, second) => match b {
            Formula::TemporalPair(other, third, fourth) => {
                *op == *other && same_formula(first, third) && same_formula(second, fourth)
            }
            _ => false,
        },
        _ => false,
    }
}

/// Whether the formulas of two lists are the same in turn.
#[cycle(same)]
fn same_formulas(a: &[Formula], b: &[Formula]) -> bool
    ensures { IsTrue result → map claim_of a.now ≡ map claim_of b.now }
{
    if a.len() != b.len() {
        return false;
    }
    let mut place = 0;
    for formula in a {
        let same = same_formula(formula, &b[place]);
        if !same {
            return false;
        }
        place += 1;
    }
    true
}

/// Whether the variables of two lists are the same in turn.
#[cycle(same)]
fn same_variables(a: &[Variable], b: &[Variable]) -> bool
    ensures { IsTrue result → map variable_of a.now ≡ map variable_of b.now }
{
    if a.len() != b.len() {
        return false;
    }
    let mut place = 0;
    for variable in a {
        let other = &b[place];
        let same = variable.name == other.name
            && variable.apart == other.apart
            && same_expr(&variable.bound, &other.bound);
        if !same {
            return false;
        }
        place += 1;
    }
    true
}
