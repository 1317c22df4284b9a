//! Which leaves a formula names, so that no other is built.

use core_tree::{Expr, Formula, Variable};

/// The numbers of the sets without parts: those of the relations, then `univ`, `iden` and `Int`.
#[derive(Clone, Copy, Debug, PartialEq, Eq)]
pub struct Leaves {
    /// How many sigs there are; the fields stand behind them.
    pub sigs: usize,
    /// How many relations there are.
    pub relations: usize,
}

impl Leaves {
    /// How many numbers there are.
    pub fn count(&self) -> usize {
        self.relations.saturating_add(3)
    }
}

/// The number of an expression without parts that isn't a name.
pub fn leaf_number(leaves: Leaves, expr: &Expr) -> Option<usize> {
    match expr {
        Expr::Sig(sig) => Some(*sig as usize),
        Expr::Field(field) => Some(leaves.sigs.saturating_add(*field as usize)),
        Expr::Univ => Some(leaves.relations),
        Expr::Iden => Some(leaves.relations.saturating_add(1)),
        Expr::Int => Some(leaves.relations.saturating_add(2)),
        _ => None,
    }
}

/// Marks the number of an expression without parts.
fn mark(leaves: Leaves, expr: &Expr, marks: &mut [bool]) {
    if let Some(number) = leaf_number(leaves, expr) {
        if number < marks.len() {
            marks[number] = true;
        }
    }
}

/// Marks what a formula names.
#[cycle(mentions)]
pub fn mark_formula(leaves: Leaves, formula: &Formula, marks: &mut [bool]) {
    match formula {
        Formula::Inside(a, b) => {
            mark_expr(leaves, a, marks);
            mark_expr(leaves, b, marks)
        }
        Formula::Equal(a, b) => {
            mark_expr(leaves, a, marks);
            mark_expr(leaves, b, marks)
        }
        Formula::Within(a, _, b) => {
            mark_expr(leaves, a, marks);
            mark_expr(leaves, b, marks)
        }
        Formula::Test(_, a) => mark_expr(leaves, a, marks),
        Formula::Compare(_, a, b) => {
            mark_expr(leaves, a, marks);
            mark_expr(leaves, b, marks)
        }
        Formula::Not(f) => mark_formula(leaves, f, marks),
        Formula::Every(list) => mark_all(leaves, list, marks),
        Formula::Connect(_, f, g) => {
            mark_formula(leaves, f, marks);
            mark_formula(leaves, g, marks)
        }
        Formula::Choose(f, g, h) => {
            mark_formula(leaves, f, marks);
            mark_formula(leaves, g, marks);
            mark_formula(leaves, h, marks)
        }
        Formula::ForAll(list, f) => {
            mark_bounds(leaves, list, marks);
            mark_formula(leaves, f, marks)
        }
        Formula::Temporal(_, f) => mark_formula(leaves, f, marks),
        Formula::TemporalPair(_, f, g) => {
            mark_formula(leaves, f, marks);
            mark_formula(leaves, g, marks)
        }
        _ => {}
    }
}

/// Marks what an expression names.
#[cycle(mentions)]
fn mark_expr(leaves: Leaves, expr: &Expr, marks: &mut [bool]) {
    match expr {
        Expr::Combine(_, a, b) => {
            mark_expr(leaves, a, marks);
            mark_expr(leaves, b, marks)
        }
        Expr::Product(a, _, _, b) => {
            mark_expr(leaves, a, marks);
            mark_expr(leaves, b, marks)
        }
        Expr::Unary(_, a) => mark_expr(leaves, a, marks),
        Expr::Prime(a) => mark_expr(leaves, a, marks),
        Expr::Choose(f, a, b) => {
            mark_formula(leaves, f, marks);
            mark_expr(leaves, a, marks);
            mark_expr(leaves, b, marks)
        }
        Expr::Comprehension(list, f) => {
            mark_bounds(leaves, list, marks);
            mark_formula(leaves, f, marks)
        }
        Expr::Count(a) => mark_expr(leaves, a, marks),
        Expr::Arithmetic(_, a, b) => {
            mark_expr(leaves, a, marks);
            mark_expr(leaves, b, marks)
        }
        Expr::Sum(list, a) => {
            mark_bounds(leaves, list, marks);
            mark_expr(leaves, a, marks)
        }
        _ => mark(leaves, expr, marks),
    }
}

/// Marks what the formulas of a list name.
#[cycle(mentions)]
fn mark_all(leaves: Leaves, list: &[Formula], marks: &mut [bool]) {
    for formula in list {
        mark_formula(leaves, formula, marks);
    }
}

/// Marks what the bounds of variables name.
#[cycle(mentions)]
fn mark_bounds(leaves: Leaves, list: &[Variable], marks: &mut [bool]) {
    for variable in list {
        mark_expr(leaves, &variable.bound, marks);
    }
}
