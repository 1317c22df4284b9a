//! What the forms of the text become, once their parts are prepared.

use crate::roots::{Piece, Resolved, draft_of, settle_term, settle_test};
use base_types::Position;
use core_tree::{Expr, Formula, Quantity, Variable};
use resolve_context::faults::Broken;
use resolve_context::forms::{
    CompareForm, InfixForm, arrow_word, bound_word, compare_form, quantity_of,
};
use resolve_context::formulas::negated;
use resolve_context::locals::{add_local, number_of};
use resolve_context::meanings::{int_type, set_meaning};
use resolve_context::state::{Root, Setting, State, note_at};
use resolve_drafts::Draft;
use resolve_readings::{Binary, RootPlace};
use resolve_types::Columns;
use std::alloc::{AllocError, Global};
use syntax_tree::{Comparison as Compared, Multiplicity as Word, Named, Quantifier};

/// A value of a `let`, with the number of its name; none where it was refused.
#[derive(Drop)]
pub struct Value {
    pub number: u32,
    pub tree: Option<Expr>,
}

/// Variables with the product of their bounds' types.
#[derive(Drop)]
pub struct Bound {
    pub variables: Vec<Variable>,
    pub columns: Columns,
    /// Whether all bounds have a reading.
    pub is_right: bool,
}

/// Notes a variable over sets or relations.
pub fn note_bound(
    setting: &Setting<'_>,
    state: &mut State,
    names: &[Named],
    word: Option<Word>,
    bound: &Option<Resolved>,
) {
    let is_word = matches!(word, Some(Word::Set) | Some(Word::Lone) | Some(Word::Some));
    let is_wide = match bound {
        None => false,
        Some(bound) => bound.columns.count > 1,
    };
    if is_word || is_wide {
        if let Some(first) = names.first() {
            note_at(setting, state, first.place, Broken::HigherOrder);
        }
    }
}

/// One variable of a list, with its copy of the bound.
pub fn add_variable(
    alloc: Global,
    setting: &Setting<'_>,
    state: &mut State,
    name: &Named,
    apart: usize,
    bound: &Resolved,
    all: &mut Bound,
) -> Result<(), AllocError> {
    let columns = bound.columns.copy(alloc)?;
    let product = all
        .columns
        .product(alloc, &setting.known.typing.lines, &columns)?;
    all.columns = product;
    let tree = bound.tree.copy(alloc)?;
    let number = add_local(alloc, &mut state.locals, name.name.text(), Some(columns))?;
    all.variables.push(Variable {
        name: number,
        apart: number_of(apart),
        bound: tree,
    })?;
    Ok(())
}

/// The variables of a list, once its bound is settled.
pub fn add_variables(
    alloc: Global,
    setting: &Setting<'_>,
    state: &mut State,
    names: &[Named],
    is_disjoint: bool,
    bound: &Option<Resolved>,
    all: &mut Bound,
) -> Result<(), AllocError> {
    for place in 0..names.len() {
        match bound {
            None => {
                all.is_right = false;
                let name = names[place].name.text();
                add_local(alloc, &mut state.locals, name, None)?;
            }
            Some(bound) => {
                let apart = if is_disjoint { place } else { 0 };
                add_variable(alloc, setting, state, &names[place], apart, bound, all)?;
            }
        }
    }
    Ok(())
}

/// `=>` with `else` between expressions. The condition has roots of its own: where it was refused, the
/// root is judged all the same.
pub fn chosen_draft(
    alloc: Global,
    condition: Option<Formula>,
    left: Draft,
    right: Draft,
) -> Result<Draft, AllocError> {
    let condition = match condition {
        Some(condition) => condition,
        None => Formula::Every(Vec::new(alloc)),
    };
    let left = Box::new(alloc, left)?;
    let right = Box::new(alloc, right)?;
    Ok(Draft::Choose(condition, left, right))
}

/// Two parts of a root under an operator.
pub fn pair_draft(
    alloc: Global,
    op: Binary,
    left: Draft,
    right: Draft,
) -> Result<Draft, AllocError> {
    let left = Box::new(alloc, left)?;
    let right = Box::new(alloc, right)?;
    Ok(Draft::Pair(op, left, right))
}

/// An operator between two parts of a root.
pub fn linked_draft(
    alloc: Global,
    form: InfixForm,
    left: Draft,
    right: Draft,
) -> Result<Draft, AllocError> {
    match form {
        InfixForm::Relation(op) => pair_draft(alloc, op, left, right),
        InfixForm::Arrow(first, second) => {
            let marked = first.is_some() || second.is_some();
            let left = Box::new(alloc, left)?;
            let right = Box::new(alloc, right)?;
            let first = arrow_word(first);
            let second = arrow_word(second);
            Ok(Draft::Arrow(marked, first, second, left, right))
        }
        InfixForm::Integer(op) => {
            let left = Box::new(alloc, left)?;
            let right = Box::new(alloc, right)?;
            Ok(Draft::Arithmetic(op, left, right))
        }
        _ => pair_draft(alloc, Binary::Equal, left, right),
    }
}

/// A comparison of two parts of a root.
pub fn compared_draft(
    alloc: Global,
    form: CompareForm,
    left: Draft,
    right: Draft,
) -> Result<Draft, AllocError> {
    match form {
        CompareForm::Sets(op) => pair_draft(alloc, op, left, right),
        CompareForm::Integers(comparison) => {
            let left = Box::new(alloc, left)?;
            let right = Box::new(alloc, right)?;
            Ok(Draft::Compare(comparison, left, right))
        }
    }
}

/// `some`, `no`, `lone` or `one` on an expression.
pub fn tested(
    alloc: Global,
    quantity: Quantity,
    operand: Option<Resolved>,
) -> Result<Option<Formula>, AllocError> {
    let Some(Resolved { tree, columns: _ }) = operand else {
        return Ok(None);
    };
    let tree = Box::new(alloc, tree)?;
    Ok(Some(Formula::Test(quantity, tree)))
}

/// A formula with variables.
pub fn quantified_formula(
    alloc: Global,
    quantifier: Quantifier,
    bound: Bound,
    body: Option<Formula>,
) -> Result<Option<Formula>, AllocError> {
    let Bound {
        variables,
        columns: _,
        is_right,
    } = bound;
    if !is_right {
        return Ok(None);
    }
    let Some(body) = body else {
        return Ok(None);
    };
    let body = Box::new(alloc, body)?;
    match quantity_of(quantifier) {
        None => Ok(Some(Formula::ForAll(variables, body))),
        Some(quantity) => Ok(Some(Formula::Counted(quantity, variables, body))),
    }
}

/// A comprehension; where a bound was refused the root is spoilt, since its type is that of the bounds.
pub fn comprehended(
    alloc: Global,
    root: &mut Root,
    bound: Bound,
    body: Option<Formula>,
) -> Result<Draft, AllocError> {
    let Bound {
        variables,
        columns,
        is_right,
    } = bound;
    if !is_right {
        root.is_spoilt = true;
    }
    let meaning = set_meaning(columns, false);
    let Some(body) = body else {
        return Ok(Draft::Known(meaning, Expr::Empty));
    };
    let body = Box::new(alloc, body)?;
    Ok(Draft::Known(meaning, Expr::Comprehension(variables, body)))
}

/// A `sum`, which is an integer whatever was refused in it.
pub fn summed(alloc: Global, bound: Bound, body: Option<Resolved>) -> Result<Draft, AllocError> {
    let Bound {
        variables,
        columns: _,
        is_right: _,
    } = bound;
    let meaning = set_meaning(int_type(alloc)?, false);
    let Some(Resolved { tree, columns: _ }) = body else {
        return Ok(Draft::Known(meaning, Expr::Empty));
    };
    let body = Box::new(alloc, tree)?;
    Ok(Draft::Known(meaning, Expr::Sum(variables, body)))
}

/// The values from the last to the first.
fn turned(values: Vec<Value>) -> Vec<Value> {
    let mut values = values;
    values.as_mut_slice().reverse();
    values
}

/// The formula under the `let` names, of which the last is innermost.
pub fn let_formula(
    alloc: Global,
    values: Vec<Value>,
    body: Option<Formula>,
) -> Result<Option<Formula>, AllocError> {
    let Some(mut formula) = body else {
        return Ok(None);
    };
    for value in turned(values) {
        let Value { number, tree } = value;
        let Some(tree) = tree else {
            return Ok(None);
        };
        let tree = Box::new(alloc, tree)?;
        let inner = Box::new(alloc, formula)?;
        formula = Formula::Let(number, tree, inner);
    }
    Ok(Some(formula))
}

/// The value of a `let`; where it was refused the root is spoilt.
fn value_of(root: &mut Root, tree: Option<Expr>) -> Expr {
    match tree {
        Some(tree) => tree,
        None => {
            root.is_spoilt = true;
            Expr::Empty
        }
    }
}

/// The part under the `let` names; where a value was refused the root is spoilt.
pub fn let_draft(
    alloc: Global,
    root: &mut Root,
    values: Vec<Value>,
    body: Draft,
) -> Result<Draft, AllocError> {
    let mut draft = body;
    for value in turned(values) {
        let Value { number, tree } = value;
        let tree = value_of(root, tree);
        let inner = Box::new(alloc, draft)?;
        draft = Draft::Let(number, tree, inner);
    }
    Ok(draft)
}

/// The tree and the type of a `let` value, which becomes a local.
pub fn add_value(
    alloc: Global,
    state: &mut State,
    name: &str,
    value: Option<Resolved>,
    values: &mut Vec<Value>,
) -> Result<(), AllocError> {
    match value {
        None => {
            let number = add_local(alloc, &mut state.locals, name, None)?;
            values.push(Value { number, tree: None })?;
        }
        Some(Resolved { tree, columns }) => {
            let number = add_local(alloc, &mut state.locals, name, Some(columns))?;
            values.push(Value {
                number,
                tree: Some(tree),
            })?;
        }
    }
    Ok(())
}

/// The body of a `sum` by its reading: an expression of one column.
pub fn settle_sum(
    alloc: Global,
    setting: &Setting<'_>,
    state: &mut State,
    root: Root,
    start: Position,
    draft: Draft,
) -> Result<Option<Resolved>, AllocError> {
    let place = RootPlace::Columns(1);
    settle_term(alloc, setting, state, root, start, draft, place, 0)
}

/// The value of a `let`, or what stands after `some`, `no`, `lone` or `one`, by its reading.
pub fn settle_value(
    alloc: Global,
    setting: &Setting<'_>,
    state: &mut State,
    root: Root,
    start: Position,
    draft: Draft,
) -> Result<Option<Resolved>, AllocError> {
    let place = RootPlace::Value;
    settle_term(alloc, setting, state, root, start, draft, place, 0)
}

/// A bound by its reading.
pub fn settle_bound(
    alloc: Global,
    setting: &Setting<'_>,
    state: &mut State,
    root: Root,
    start: Position,
    word: Option<Word>,
    piece: Piece,
    more: u32,
) -> Result<Option<Resolved>, AllocError> {
    let place = RootPlace::Bound(bound_word(word));
    let draft = draft_of(alloc, piece)?;
    settle_term(alloc, setting, state, root, start, draft, place, more)
}

/// A comparison by its reading.
pub fn settle_comparison(
    alloc: Global,
    setting: &Setting<'_>,
    state: &mut State,
    root: Root,
    start: Position,
    comparison: Compared,
    left: Draft,
    right: Draft,
) -> Result<Option<Formula>, AllocError> {
    let form = compare_form(comparison.comparator, comparison.word);
    let draft = compared_draft(alloc, form, left, right)?;
    let formula = settle_test(alloc, setting, state, root, start, draft)?;
    negated(alloc, comparison.negation, formula)
}

/// The names that came after the first so many go out of scope.
pub fn keep_locals(state: &mut State, count: usize) {
    state.locals.truncate(count);
}
