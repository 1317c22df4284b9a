//! The type of a bound, and the product of the types of several.

use crate::Columns;
use crate::ground::{Ground, int_type, no_columns, nothing, static_sig};
use base_lists::Items;
use core_tree::{Expr, RelationOp, UnaryRelation, Variable};
use std::alloc::{AllocError, Global};

fn copy_of(alloc: Global, all: &[Option<Columns>], place: usize) -> Result<Columns, AllocError> {
    match all.get(place) {
        Some(Some(columns)) => columns.copy(alloc),
        _ => Ok(nothing(alloc, 1)),
    }
}

fn joined(
    alloc: Global,
    lines: &Items<Items<u32>>,
    a: &Columns,
    b: &Columns,
) -> Result<Columns, AllocError> {
    if a.count < 1 || b.count < 1 || a.count == 1 && b.count == 1 {
        return Ok(nothing(alloc, 1));
    }
    a.join(alloc, lines, b)
}

fn combined(
    alloc: Global,
    lines: &Items<Items<u32>>,
    op: RelationOp,
    a: Columns,
    b: Columns,
) -> Result<Columns, AllocError> {
    match op {
        RelationOp::Union | RelationOp::Override => a.union(alloc, &b),
        RelationOp::Difference => Ok(a),
        RelationOp::Intersection => a.meets(alloc, lines, &b),
        RelationOp::Join => joined(alloc, lines, &a, &b),
        RelationOp::LeftRestrict => a.restrict_left(alloc, lines, &b),
        RelationOp::RightRestrict => a.restrict_right(alloc, lines, &b),
    }
}

fn distinct_combined(
    alloc: Global,
    lines: &Items<Items<u32>>,
    op: RelationOp,
    a: Columns,
    b: Columns,
) -> Result<Columns, AllocError> {
    let made = combined(alloc, lines, op, a, b)?;
    made.distinct(alloc)
}

fn turned(
    alloc: Global,
    ground: &Ground<'_>,
    op: UnaryRelation,
    a: Columns,
) -> Result<Columns, AllocError> {
    match op {
        UnaryRelation::Transpose => a.transpose(alloc),
        UnaryRelation::Closure => a.closure(alloc, ground.lines),
        UnaryRelation::ReflexiveClosure => {
            let closed = a.closure(alloc, ground.lines)?;
            closed.union(alloc, ground.iden)
        }
    }
}

fn distinct_turned(
    alloc: Global,
    ground: &Ground<'_>,
    op: UnaryRelation,
    a: Columns,
) -> Result<Columns, AllocError> {
    let made = turned(alloc, ground, op, a)?;
    made.distinct(alloc)
}

/// The type of a sig of the model: a literal's is that of `String`.
fn model_sig(alloc: Global, ground: &Ground<'_>, sig: u32) -> Result<Columns, AllocError> {
    if sig > ground.string {
        return static_sig(alloc, ground, ground.string);
    }
    static_sig(alloc, ground, sig)
}

fn both(alloc: Global, a: Columns, b: Columns) -> Result<Columns, AllocError> {
    let made = a.union(alloc, &b)?;
    made.distinct(alloc)
}

/// The type of a bound. The types of the names in scope are in the order of their numbers.
#[cycle(rows)]
pub fn static_type(
    alloc: Global,
    ground: &Ground<'_>,
    locals: &mut Vec<Option<Columns>>,
    tree: &Expr,
) -> Result<Columns, AllocError> {
    match tree {
        Expr::Sig(sig) => model_sig(alloc, ground, *sig),
        Expr::Field(field) => copy_of(alloc, ground.fields, *field as usize),
        Expr::Name(name) => copy_of(alloc, locals.as_slice(), *name as usize),
        Expr::Univ => ground.univ.copy(alloc),
        Expr::Iden => ground.iden.copy(alloc),
        Expr::Empty | Expr::Call(_, _) => Ok(nothing(alloc, 1)),
        Expr::Int
        | Expr::Number(_, _)
        | Expr::Count(_)
        | Expr::Arithmetic(_, _, _)
        | Expr::Sum(_, _) => int_type(alloc),
        Expr::Combine(op, a, b) => {
            let a = static_type(alloc, ground, locals, a)?;
            let b = static_type(alloc, ground, locals, b)?;
            distinct_combined(alloc, ground.lines, *op, a, b)
        }
        Expr::Product(a, _, _, b) => {
            let a = static_type(alloc, ground, locals, a)?;
            let b = static_type(alloc, ground, locals, b)?;
            a.product(alloc, ground.lines, &b)
        }
        Expr::Unary(op, a) => {
            let a = static_type(alloc, ground, locals, a)?;
            distinct_turned(alloc, ground, *op, a)
        }
        Expr::Prime(a) => static_type(alloc, ground, locals, a),
        Expr::Choose(_, a, b) => {
            let a = static_type(alloc, ground, locals, a)?;
            let b = static_type(alloc, ground, locals, b)?;
            both(alloc, a, b)
        }
        Expr::Comprehension(variables, _) => {
            let count = locals.len();
            let columns = static_variables(alloc, ground, locals, variables.as_slice())?;
            locals.truncate(count);
            Ok(columns)
        }
        Expr::Let(_, value, body) => {
            let count = locals.len();
            let value = static_type(alloc, ground, locals, value)?;
            locals.push(Some(value))?;
            let columns = static_type(alloc, ground, locals, body)?;
            locals.truncate(count);
            Ok(columns)
        }
    }
}

/// The product of the types of variables' bounds.
#[cycle(rows)]
fn static_variables(
    alloc: Global,
    ground: &Ground<'_>,
    locals: &mut Vec<Option<Columns>>,
    variables: &[Variable],
) -> Result<Columns, AllocError> {
    let mut all = no_columns(alloc)?;
    for variable in variables {
        let columns = static_type(alloc, ground, locals, &variable.bound)?;
        all = all.product(alloc, ground.lines, &columns)?;
        locals.push(Some(columns))?;
    }
    Ok(all)
}
