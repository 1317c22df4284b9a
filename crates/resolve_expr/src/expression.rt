//! The walk over an expression or a formula, which settles the roots in it.

use crate::pieces::{
    Bound, Value, add_value, add_variables, chosen_draft, comprehended, keep_locals, let_draft,
    let_formula, linked_draft, note_bound, pair_draft, quantified_formula, settle_bound,
    settle_comparison, settle_sum, settle_value, summed, tested,
};
use crate::roots::{Piece, Resolved, draft_of, formula_of, single};
use base_types::Position;
use core_tree::{Expr, Formula, TemporalBinary};
use resolve_context::candidates::{
    constant_draft, field_draft, literal_draft, name_draft, number_draft,
};
use resolve_context::forms::{InfixForm, PrefixForm, infix_form, prefix_form};
use resolve_context::formulas::{
    are_logical, below_zero, chosen, implied, linked_formula, prefixed_formula,
};
use resolve_context::meanings::{formula_meaning, no_columns};
use resolve_context::places::{first_place, inner_place};
use resolve_context::state::{Root, Setting, State, new_root};
use resolve_drafts::Draft;
use resolve_readings::{Binary, Unary};
use std::alloc::{AllocError, Global};
use syntax_tree::{Access, Binding, Decl, Expr as Tree, Infix, Quantifier};

/// An expression or a formula: a part of the root, or a formula with its own roots. `wants` says
/// whether it stands in a formula's place.
#[cycle(walk)]
pub fn prepare(
    alloc: Global,
    setting: &Setting<'_>,
    state: &mut State,
    root: &mut Root,
    wants: bool,
    tree: &Tree,
) -> Result<Piece, AllocError> {
    match tree {
        Tree::Parenthesis(_, inner) => {
            if wants {
                return prepare(alloc, setting, state, root, true, inner.get());
            }
            let draft = draft_in(alloc, setting, state, root, inner.get())?;
            Ok(Piece::Part(single(alloc, Unary::Whole, draft)?))
        }
        Tree::Prime(inner) => {
            let draft = draft_in(alloc, setting, state, root, inner.get())?;
            Ok(Piece::Part(single(alloc, Unary::Prime, draft)?))
        }
        Tree::Block(_, items) => block(alloc, setting, state, items.as_slice()),
        Tree::Comprehension(_, _, _, _) => comprehension(alloc, setting, state, root, tree),
        Tree::Quantified(_, quantifier, _, _, _) => match quantifier {
            Quantifier::Sum => sum(alloc, setting, state, tree),
            _ => quantified(alloc, setting, state, tree),
        },
        Tree::Let(_, _, _, _) => bound(alloc, setting, state, root, wants, tree),
        Tree::Sequence(_, _) => sequence(alloc, setting, state, tree),
        Tree::Implication(_, _, _, _) => {
            if wants {
                return implication(alloc, setting, state, tree);
            }
            choice(alloc, setting, state, root, tree)
        }
        Tree::Compare(_, _, _) => comparison(alloc, setting, state, tree),
        Tree::Prefix(_, _, _) => prefixed(alloc, setting, state, root, tree),
        Tree::Infix(_, links) => {
            if are_logical(links.as_slice()) {
                return logical(alloc, setting, state, tree);
            }
            operation(alloc, setting, state, root, tree)
        }
        Tree::Join(_, _) => join(alloc, setting, state, root, tree),
        _ => leaf(alloc, setting, state, root, tree),
    }
}

/// What has no parts, as a piece.
fn leaf(
    alloc: Global,
    setting: &Setting<'_>,
    state: &mut State,
    root: &mut Root,
    tree: &Tree,
) -> Result<Piece, AllocError> {
    let draft = leaf_draft(alloc, setting, state, root, tree)?;
    Ok(Piece::Part(draft))
}

/// What has no parts.
fn leaf_draft(
    alloc: Global,
    setting: &Setting<'_>,
    state: &mut State,
    root: &mut Root,
    tree: &Tree,
) -> Result<Draft, AllocError> {
    match tree {
        Tree::Name(name) => name_draft(alloc, setting, state, root, name),
        Tree::At(_, name) => field_draft(alloc, setting, state, root, name),
        Tree::Constant(place, word) => constant_draft(alloc, setting, state, root, *place, *word),
        Tree::Number(place, number) => number_draft(alloc, root, *place, i64::from(*number)),
        Tree::Negative(place, number) => number_draft(alloc, root, *place, below_zero(*number)),
        Tree::Literal(place, text) => literal_draft(alloc, setting, state, root, *place, text),
        _ => Ok(Draft::Known(formula_meaning(false), Expr::Empty)),
    }
}

/// A formula with its own roots; none where something in it was refused.
#[cycle(walk)]
fn formula_in(
    alloc: Global,
    setting: &Setting<'_>,
    state: &mut State,
    tree: &Tree,
) -> Result<Option<Formula>, AllocError> {
    let mut root = new_root();
    let piece = prepare(alloc, setting, state, &mut root, true, tree)?;
    formula_of(alloc, setting, state, root, inner_place(tree), piece)
}

/// A part of a root in an expression's place.
#[cycle(walk)]
fn draft_in(
    alloc: Global,
    setting: &Setting<'_>,
    state: &mut State,
    root: &mut Root,
    tree: &Tree,
) -> Result<Draft, AllocError> {
    let piece = prepare(alloc, setting, state, root, false, tree)?;
    draft_of(alloc, piece)
}

/// The items of a block, as a conjunction.
#[cycle(walk)]
fn block(
    alloc: Global,
    setting: &Setting<'_>,
    state: &mut State,
    items: &[Tree],
) -> Result<Piece, AllocError> {
    let mut all = Vec::new(alloc);
    let mut is_right = true;
    for item in items {
        match formula_in(alloc, setting, state, item)? {
            Some(formula) => all.push(formula)?,
            None => is_right = false,
        }
    }
    if is_right {
        return Ok(Piece::Claim(Some(Formula::Every(all))));
    }
    Ok(Piece::Claim(None))
}

/// `{ x: a | F }`.
#[cycle(walk)]
fn comprehension(
    alloc: Global,
    setting: &Setting<'_>,
    state: &mut State,
    root: &mut Root,
    tree: &Tree,
) -> Result<Piece, AllocError> {
    match tree {
        Tree::Comprehension(_, decls, _, body) => {
            let count = state.locals.len();
            let bound = variables(alloc, setting, state, decls.as_slice())?;
            let formula = formula_in(alloc, setting, state, body.get())?;
            keep_locals(state, count);
            let draft = comprehended(alloc, root, bound, formula)?;
            Ok(Piece::Part(draft))
        }
        _ => Ok(Piece::Claim(None)),
    }
}

/// `sum x: a | e`.
#[cycle(walk)]
fn sum(
    alloc: Global,
    setting: &Setting<'_>,
    state: &mut State,
    tree: &Tree,
) -> Result<Piece, AllocError> {
    match tree {
        Tree::Quantified(_, _, decls, _, body) => {
            let count = state.locals.len();
            let bound = variables(alloc, setting, state, decls.as_slice())?;
            let mut inner = new_root();
            let draft = draft_in(alloc, setting, state, &mut inner, body.get())?;
            let start = first_place(body.get());
            let value = settle_sum(alloc, setting, state, inner, start, draft)?;
            keep_locals(state, count);
            let draft = summed(alloc, bound, value)?;
            Ok(Piece::Part(draft))
        }
        _ => Ok(Piece::Claim(None)),
    }
}

/// `all x: a | F`, and the like.
#[cycle(walk)]
fn quantified(
    alloc: Global,
    setting: &Setting<'_>,
    state: &mut State,
    tree: &Tree,
) -> Result<Piece, AllocError> {
    match tree {
        Tree::Quantified(_, quantifier, decls, _, body) => {
            let count = state.locals.len();
            let bound = variables(alloc, setting, state, decls.as_slice())?;
            let formula = formula_in(alloc, setting, state, body.get())?;
            keep_locals(state, count);
            let formula = quantified_formula(alloc, *quantifier, bound, formula)?;
            Ok(Piece::Claim(formula))
        }
        _ => Ok(Piece::Claim(None)),
    }
}

/// A `let` in a formula's place or in an expression's.
#[cycle(walk)]
fn bound(
    alloc: Global,
    setting: &Setting<'_>,
    state: &mut State,
    root: &mut Root,
    wants: bool,
    tree: &Tree,
) -> Result<Piece, AllocError> {
    match tree {
        Tree::Let(_, bindings, _, body) => {
            let count = state.locals.len();
            let all = values(alloc, setting, state, bindings.as_slice())?;
            if wants {
                let formula = formula_in(alloc, setting, state, body.get())?;
                keep_locals(state, count);
                let formula = let_formula(alloc, all, formula)?;
                return Ok(Piece::Claim(formula));
            }
            let draft = draft_in(alloc, setting, state, root, body.get())?;
            keep_locals(state, count);
            let draft = let_draft(alloc, root, all, draft)?;
            Ok(Piece::Part(draft))
        }
        _ => Ok(Piece::Claim(None)),
    }
}

/// `F ; G`.
#[cycle(walk)]
fn sequence(
    alloc: Global,
    setting: &Setting<'_>,
    state: &mut State,
    tree: &Tree,
) -> Result<Piece, AllocError> {
    match tree {
        Tree::Sequence(first, second) => {
            let a = formula_in(alloc, setting, state, first.get())?;
            let b = formula_in(alloc, setting, state, second.get())?;
            let form = InfixForm::Temporal(TemporalBinary::Then);
            Ok(Piece::Claim(linked_formula(alloc, form, false, a, b)?))
        }
        _ => Ok(Piece::Claim(None)),
    }
}

/// `=>` in a formula's place, with or without `else`.
#[cycle(walk)]
fn implication(
    alloc: Global,
    setting: &Setting<'_>,
    state: &mut State,
    tree: &Tree,
) -> Result<Piece, AllocError> {
    match tree {
        Tree::Implication(_, condition, consequence, other) => {
            let c = formula_in(alloc, setting, state, condition.get())?;
            let a = formula_in(alloc, setting, state, consequence.get())?;
            match other {
                None => Ok(Piece::Claim(implied(alloc, c, a)?)),
                Some(other) => {
                    let b = formula_in(alloc, setting, state, other.get())?;
                    Ok(Piece::Claim(chosen(alloc, c, a, b)?))
                }
            }
        }
        _ => Ok(Piece::Claim(None)),
    }
}

/// `=>` in an expression's place: with `else` it is an expression.
#[cycle(walk)]
fn choice(
    alloc: Global,
    setting: &Setting<'_>,
    state: &mut State,
    root: &mut Root,
    tree: &Tree,
) -> Result<Piece, AllocError> {
    match tree {
        Tree::Implication(_, condition, consequence, Some(other)) => {
            let c = formula_in(alloc, setting, state, condition.get())?;
            let a = draft_in(alloc, setting, state, root, consequence.get())?;
            let b = draft_in(alloc, setting, state, root, other.get())?;
            Ok(Piece::Part(chosen_draft(alloc, c, a, b)?))
        }
        _ => implication(alloc, setting, state, tree),
    }
}

/// A comparison, which is a root.
#[cycle(walk)]
fn comparison(
    alloc: Global,
    setting: &Setting<'_>,
    state: &mut State,
    tree: &Tree,
) -> Result<Piece, AllocError> {
    match tree {
        Tree::Compare(operator, left, right) => {
            let mut inner = new_root();
            let a = draft_in(alloc, setting, state, &mut inner, left.get())?;
            let b = draft_in(alloc, setting, state, &mut inner, right.get())?;
            let start = first_place(left.get());
            let formula = settle_comparison(alloc, setting, state, inner, start, *operator, a, b)?;
            Ok(Piece::Claim(formula))
        }
        _ => Ok(Piece::Claim(None)),
    }
}

/// An operator before its operand.
#[cycle(walk)]
fn prefixed(
    alloc: Global,
    setting: &Setting<'_>,
    state: &mut State,
    root: &mut Root,
    tree: &Tree,
) -> Result<Piece, AllocError> {
    match tree {
        Tree::Prefix(place, operator, operand) => match prefix_form(*operator) {
            PrefixForm::Relation(op) => {
                let draft = draft_in(alloc, setting, state, root, operand.get())?;
                Ok(Piece::Part(single(alloc, op, draft)?))
            }
            PrefixForm::Test(quantity) => {
                let value = value_in(alloc, setting, state, *place, operand.get())?;
                Ok(Piece::Claim(tested(alloc, quantity, value)?))
            }
            form => {
                let formula = formula_in(alloc, setting, state, operand.get())?;
                Ok(Piece::Claim(prefixed_formula(alloc, form, formula)?))
            }
        },
        _ => Ok(Piece::Claim(None)),
    }
}

/// The value of a `let`, or what stands after `some`, `no`, `lone` or `one`.
#[cycle(walk)]
fn value_in(
    alloc: Global,
    setting: &Setting<'_>,
    state: &mut State,
    start: Position,
    tree: &Tree,
) -> Result<Option<Resolved>, AllocError> {
    let mut root = new_root();
    let draft = draft_in(alloc, setting, state, &mut root, tree)?;
    settle_value(alloc, setting, state, root, start, draft)
}

/// Formulas with operators between them, from the left.
#[cycle(walk)]
fn logical(
    alloc: Global,
    setting: &Setting<'_>,
    state: &mut State,
    tree: &Tree,
) -> Result<Piece, AllocError> {
    match tree {
        Tree::Infix(first, links) => {
            let so_far = formula_in(alloc, setting, state, first.get())?;
            let formula = linked(alloc, setting, state, links.as_slice(), so_far)?;
            Ok(Piece::Claim(formula))
        }
        _ => Ok(Piece::Claim(None)),
    }
}

/// A formula with those behind it.
#[cycle(walk)]
fn linked(
    alloc: Global,
    setting: &Setting<'_>,
    state: &mut State,
    links: &[(Infix, Tree)],
    first: Option<Formula>,
) -> Result<Option<Formula>, AllocError> {
    let mut so_far = first;
    let mut is_later = false;
    for link in links {
        let formula = formula_in(alloc, setting, state, &link.1)?;
        so_far = linked_formula(alloc, infix_form(link.0), is_later, so_far, formula)?;
        is_later = true;
    }
    Ok(so_far)
}

/// Parts of a root with operators between them, from the left.
#[cycle(walk)]
fn operation(
    alloc: Global,
    setting: &Setting<'_>,
    state: &mut State,
    root: &mut Root,
    tree: &Tree,
) -> Result<Piece, AllocError> {
    match tree {
        Tree::Infix(first, links) => {
            let so_far = draft_in(alloc, setting, state, root, first.get())?;
            let draft = operated(alloc, setting, state, root, links.as_slice(), so_far)?;
            Ok(Piece::Part(draft))
        }
        _ => Ok(Piece::Claim(None)),
    }
}

/// A part of a root with those behind it.
#[cycle(walk)]
fn operated(
    alloc: Global,
    setting: &Setting<'_>,
    state: &mut State,
    root: &mut Root,
    links: &[(Infix, Tree)],
    first: Draft,
) -> Result<Draft, AllocError> {
    let mut so_far = first;
    for link in links {
        let draft = draft_in(alloc, setting, state, root, &link.1)?;
        so_far = linked_draft(alloc, infix_form(link.0), so_far, draft)?;
    }
    Ok(so_far)
}

/// A join with its steps.
#[cycle(walk)]
fn join(
    alloc: Global,
    setting: &Setting<'_>,
    state: &mut State,
    root: &mut Root,
    tree: &Tree,
) -> Result<Piece, AllocError> {
    match tree {
        Tree::Join(first, steps) => {
            let so_far = draft_in(alloc, setting, state, root, first.get())?;
            let draft = joined(alloc, setting, state, root, steps.as_slice(), so_far)?;
            Ok(Piece::Part(draft))
        }
        _ => Ok(Piece::Claim(None)),
    }
}

/// A part of a root with the steps behind it.
#[cycle(walk)]
fn joined(
    alloc: Global,
    setting: &Setting<'_>,
    state: &mut State,
    root: &mut Root,
    steps: &[Access<Tree>],
    first: Draft,
) -> Result<Draft, AllocError> {
    let mut so_far = first;
    for step in steps {
        match step {
            Access::Dot(operand) => {
                let draft = draft_in(alloc, setting, state, root, operand)?;
                so_far = pair_draft(alloc, Binary::Dot, so_far, draft)?;
            }
            Access::Bracket(arguments) => {
                let arguments = arguments.as_slice();
                for argument in arguments {
                    let draft = draft_in(alloc, setting, state, root, argument)?;
                    so_far = pair_draft(alloc, Binary::Apply, so_far, draft)?;
                }
            }
        }
    }
    Ok(so_far)
}

/// The variables of declarations, which become locals.
#[cycle(walk)]
fn variables(
    alloc: Global,
    setting: &Setting<'_>,
    state: &mut State,
    decls: &[Decl<Tree>],
) -> Result<Bound, AllocError> {
    let mut all = Bound {
        variables: Vec::new(alloc),
        columns: no_columns(alloc)?,
        is_right: true,
    };
    for decl in decls {
        let mut inner = new_root();
        let piece = prepare(alloc, setting, state, &mut inner, false, &decl.bound)?;
        let place = decl.bound_place;
        let bound = settle_bound(alloc, setting, state, inner, place, decl.word, piece, 0)?;
        let names = decl.names.as_slice();
        note_bound(setting, state, names, decl.word, &bound);
        let is_disjoint = decl.is_disjoint;
        add_variables(alloc, setting, state, names, is_disjoint, &bound, &mut all)?;
    }
    Ok(all)
}

/// The values of a `let`, whose names become locals.
#[cycle(walk)]
fn values(
    alloc: Global,
    setting: &Setting<'_>,
    state: &mut State,
    bindings: &[Binding<Tree>],
) -> Result<Vec<Value>, AllocError> {
    let mut all = Vec::new(alloc);
    for binding in bindings {
        let start = first_place(&binding.value);
        let value = value_in(alloc, setting, state, start, &binding.value)?;
        add_value(alloc, state, binding.name.text(), value, &mut all)?;
    }
    Ok(all)
}
