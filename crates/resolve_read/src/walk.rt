//! Walks over expressions and formulas: whether what is chosen for their names are the readings of their roots.

ghost use Rattle.std.specs.Prelude.{◌≡◌, ◌+◌, take, true, IfOk, IfSome};
ghost use Rattle.syntax_tree.specs.declared.expr.Expr.{Expr};
ghost use Rattle.resolve_readings.specs.declared.meaning.Meaning.{Meaning as Meant};
ghost use Rattle.resolve_readings.specs.declared.meaning.What.TheVariants as what;
ghost use Rattle.resolve_rules.specs.Prepared.{tree_of};
ghost use Rattle.resolve_read.specs.At.{at_of, scope_of};
ghost use Rattle.resolve_read.specs.Reads.{AreRead, BoundReads, DeclsRead, IsRead, LinksRead, MayCall, Reads, RootReads, RowReads, StepsRead, ValuesRead};

use crate::draft::{Draft, columns_of, known_draft, let_draft, pair_draft, put_away, single_found};
use crate::leaves::reads_leaf;
use crate::locals::Locals;
use crate::meanings::column_of;
use crate::operators::{
    before_set, between, compared_by, is_logical, is_logical_row, is_sum, is_test, word_of,
};
use crate::products::product_of_decls;
use crate::root::reading;
use crate::spot::Spot;
use base_lists::Items;
use resolve_readings::{Binary, Meaning, RootPlace, Unary};
use resolve_types::{Columns, Member};
use std::alloc::{AllocError, Global};
use syntax_tree::{Access, Binding, Decl, Expr as Tree, Infix, Multiplicity};

/// An expression as a part of its root, with what is chosen for its names. None where a name isn't taken to stand
/// for one of its candidates, or a root in it isn't read so.
#[cycle(walk)]
fn reads(
    alloc: Global,
    spot: &Spot<'_>,
    locals: &Locals<'_>,
    tree: &Tree,
) -> Result<Option<Draft>, AllocError>
    ensures { IfOk result (λ r. IfSome r (λ d. Reads (at_of spot.now) (scope_of locals.now)
        tree.now (tree_of d.part) d.choice)) }
{
    match tree {
        Tree::Parenthesis(_, _) => reads_single(alloc, spot, locals, tree),
        Tree::Prime(_) => reads_single(alloc, spot, locals, tree),
        Tree::Prefix(_, _, _) => reads_single(alloc, spot, locals, tree),
        Tree::Infix(_, _) => reads_row(alloc, spot, locals, tree),
        Tree::Join(_, _) => reads_join(alloc, spot, locals, tree),
        Tree::Implication(_, _, _, _) => reads_choice(alloc, spot, locals, tree),
        Tree::Let(_, _, _, _) => reads_let(alloc, spot, locals, tree),
        Tree::Comprehension(_, _, _, _) => reads_comprehension(alloc, spot, locals, tree),
        Tree::Quantified(_, _, _, _, _) => reads_sum(alloc, spot, locals, tree),
        _ => reads_leaf(alloc, spot, locals, tree),
    }
}

/// An operator on one operand, or parentheses.
#[cycle(walk)]
fn reads_single(
    alloc: Global,
    spot: &Spot<'_>,
    locals: &Locals<'_>,
    tree: &Tree,
) -> Result<Option<Draft>, AllocError>
    ensures { IfOk result (λ r. IfSome r (λ d. Reads (at_of spot.now) (scope_of locals.now)
        tree.now (tree_of d.part) d.choice)) }
{
    match tree {
        Tree::Parenthesis(_, inner) => {
            let found = reads(alloc, spot, locals, inner.get())?;
            let draft = single_found(alloc, Unary::Whole, found)?;
            Ok(draft)
        }
        Tree::Prime(inner) => {
            let found = reads(alloc, spot, locals, inner.get())?;
            let draft = single_found(alloc, Unary::Prime, found)?;
            Ok(draft)
        }
        Tree::Prefix(_, op, inner) => {
            let Some(unary) = before_set(*op) else {
                return Ok(None);
            };
            let found = reads(alloc, spot, locals, inner.get())?;
            let draft = single_found(alloc, unary, found)?;
            Ok(draft)
        }
        _ => Ok(None),
    }
}

/// A row of operators.
#[cycle(walk)]
fn reads_row(
    alloc: Global,
    spot: &Spot<'_>,
    locals: &Locals<'_>,
    tree: &Tree,
) -> Result<Option<Draft>, AllocError>
    ensures { IfOk result (λ r. IfSome r (λ d. Reads (at_of spot.now) (scope_of locals.now)
        tree.now (tree_of d.part) d.choice)) }
{
    match tree {
        Tree::Infix(first, links) => {
            let first = first.get();
            let links = links.as_slice();
            let Some(begun) = reads(alloc, spot, locals, first)? else {
                return Ok(None);
            };
            let Some(draft) = reads_links(alloc, spot, locals, begun, links)? else {
                return Ok(None);
            };
            Ok(Some(draft))
        }
        _ => Ok(None),
    }
}

/// A part of a row with the operands behind it.
#[cycle(walk)]
fn reads_links(
    alloc: Global,
    spot: &Spot<'_>,
    locals: &Locals<'_>,
    begun: Draft,
    links: &[(Infix, Tree)],
) -> Result<Option<Draft>, AllocError>
    ensures { IfOk result (λ r. IfSome r (λ d. (first : Expr)
        → Reads (at_of spot.now) (scope_of locals.now) first (tree_of begun.part) begun.choice
        → RowReads (at_of spot.now) (scope_of locals.now) first links.now (tree_of d.part)
        d.choice)) }
{
    let mut so_far = begun;
    for place in 0..links.len() {
        let link = &links[place];
        let Some(op) = between(link.0) else {
            put_away(so_far);
            return Ok(None);
        };
        let Some(next) = reads(alloc, spot, locals, &link.1)? else {
            put_away(so_far);
            return Ok(None);
        };
        so_far = pair_draft(alloc, op, so_far, next)?;
    }
    Ok(Some(so_far))
}

/// A join.
#[cycle(walk)]
fn reads_join(
    alloc: Global,
    spot: &Spot<'_>,
    locals: &Locals<'_>,
    tree: &Tree,
) -> Result<Option<Draft>, AllocError>
    ensures { IfOk result (λ r. IfSome r (λ d. Reads (at_of spot.now) (scope_of locals.now)
        tree.now (tree_of d.part) d.choice)) }
{
    match tree {
        Tree::Join(first, steps) => {
            let first = first.get();
            let steps = steps.as_slice();
            let Some(begun) = reads(alloc, spot, locals, first)? else {
                return Ok(None);
            };
            let Some(draft) = reads_steps(alloc, spot, locals, begun, steps)? else {
                return Ok(None);
            };
            Ok(Some(draft))
        }
        _ => Ok(None),
    }
}

/// A part with the steps of a join behind it.
#[cycle(walk)]
fn reads_steps(
    alloc: Global,
    spot: &Spot<'_>,
    locals: &Locals<'_>,
    begun: Draft,
    steps: &[Access<Tree>],
) -> Result<Option<Draft>, AllocError>
    ensures { IfOk result (λ r. IfSome r (λ d. (first : Expr)
        → Reads (at_of spot.now) (scope_of locals.now) first (tree_of begun.part) begun.choice
        → StepsRead (at_of spot.now) (scope_of locals.now) first steps.now (tree_of d.part)
        d.choice)) }
{
    let mut so_far = begun;
    for place in 0..steps.len() {
        let Some(next) = reads_step(alloc, spot, locals, so_far, steps, place)? else {
            return Ok(None);
        };
        so_far = next;
    }
    Ok(Some(so_far))
}

/// A part with the step at that place behind it.
#[cycle(walk)]
fn reads_step(
    alloc: Global,
    spot: &Spot<'_>,
    locals: &Locals<'_>,
    before: Draft,
    steps: &[Access<Tree>],
    place: usize,
) -> Result<Option<Draft>, AllocError>
    ensures { IfOk result (λ r. IfSome r (λ d. (first : Expr)
        → StepsRead (at_of spot.now) (scope_of locals.now) first (take place steps.now)
        (tree_of before.part) before.choice
        → StepsRead (at_of spot.now) (scope_of locals.now) first (take (place + 1) steps.now)
        (tree_of d.part) d.choice)) }
{
    if place >= steps.len() {
        put_away(before);
        return Ok(None);
    }
    match &steps[place] {
        Access::Dot(operand) => {
            let Some(next) = reads(alloc, spot, locals, operand)? else {
                put_away(before);
                return Ok(None);
            };
            let draft = pair_draft(alloc, Binary::Dot, before, next)?;
            Ok(Some(draft))
        }
        Access::Bracket(arguments) => {
            let arguments = arguments.as_slice();
            let mut so_far = before;
            for number in 0..arguments.len() {
                let Some(next) = reads(alloc, spot, locals, &arguments[number])? else {
                    put_away(so_far);
                    return Ok(None);
                };
                so_far = pair_draft(alloc, Binary::Apply, so_far, next)?;
            }
            Ok(Some(so_far))
        }
    }
}

/// `=>` with `else` between expressions.
#[cycle(walk)]
fn reads_choice(
    alloc: Global,
    spot: &Spot<'_>,
    locals: &Locals<'_>,
    tree: &Tree,
) -> Result<Option<Draft>, AllocError>
    ensures { IfOk result (λ r. IfSome r (λ d. Reads (at_of spot.now) (scope_of locals.now)
        tree.now (tree_of d.part) d.choice)) }
{
    match tree {
        Tree::Implication(_, condition, consequence, other) => {
            let condition = condition.get();
            let consequence = consequence.get();
            let Some(other) = other else {
                return Ok(None);
            };
            let other = other.get();
            let is = is_read(alloc, spot, locals, condition)?;
            if !is {
                return Ok(None);
            }
            let Some(first) = reads(alloc, spot, locals, consequence)? else {
                return Ok(None);
            };
            let Some(second) = reads(alloc, spot, locals, other)? else {
                put_away(first);
                return Ok(None);
            };
            let draft = pair_draft(alloc, Binary::Choose, first, second)?;
            Ok(Some(draft))
        }
        _ => Ok(None),
    }
}

/// A `let` whose body is an expression.
#[cycle(walk)]
fn reads_let(
    alloc: Global,
    spot: &Spot<'_>,
    locals: &Locals<'_>,
    tree: &Tree,
) -> Result<Option<Draft>, AllocError>
    ensures { IfOk result (λ r. IfSome r (λ d. Reads (at_of spot.now) (scope_of locals.now)
        tree.now (tree_of d.part) d.choice)) }
{
    match tree {
        Tree::Let(_, bindings, _, body) => {
            let bindings = bindings.as_slice();
            let body = body.get();
            let Some(types) = values_read(alloc, spot, locals, bindings)? else {
                return Ok(None);
            };
            let inner = Locals::Bound(bindings, types.as_slice(), &*locals);
            let Some(inside) = reads(alloc, spot, &inner, body)? else {
                return Ok(None);
            };
            let draft = let_draft(alloc, bindings, inside)?;
            Ok(Some(draft))
        }
        _ => Ok(None),
    }
}

/// A comprehension, whose parts are roots of their own.
#[cycle(walk)]
fn reads_comprehension(
    alloc: Global,
    spot: &Spot<'_>,
    locals: &Locals<'_>,
    tree: &Tree,
) -> Result<Option<Draft>, AllocError>
    ensures { IfOk result (λ r. IfSome r (λ d. Reads (at_of spot.now) (scope_of locals.now)
        tree.now (tree_of d.part) d.choice)) }
{
    match tree {
        Tree::Comprehension(_, decls, _, body) => {
            let decls = decls.as_slice();
            let body = body.get();
            let Some(types) = decl_types(alloc, spot, locals, decls)? else {
                return Ok(None);
            };
            let inner = Locals::Declared(decls, types.as_slice(), &*locals);
            let is = is_read(alloc, spot, &inner, body)?;
            if !is {
                return Ok(None);
            }
            let columns = product_of_decls(alloc, spot, decls, types.as_slice())?;
            Ok(Some(known_draft(alloc, columns)))
        }
        _ => Ok(None),
    }
}

/// A `sum`, whose parts are roots of their own.
#[cycle(walk)]
fn reads_sum(
    alloc: Global,
    spot: &Spot<'_>,
    locals: &Locals<'_>,
    tree: &Tree,
) -> Result<Option<Draft>, AllocError>
    ensures { IfOk result (λ r. IfSome r (λ d. Reads (at_of spot.now) (scope_of locals.now)
        tree.now (tree_of d.part) d.choice)) }
{
    match tree {
        Tree::Quantified(_, word, decls, _, body) => {
            if !is_sum(*word) {
                return Ok(None);
            }
            let decls = decls.as_slice();
            let body = body.get();
            let Some(types) = decl_types(alloc, spot, locals, decls)? else {
                return Ok(None);
            };
            let inner = Locals::Declared(decls, types.as_slice(), &*locals);
            let place = RootPlace::Columns(1);
            let Some(_) = root_meaning(alloc, spot, &inner, place, body)? else {
                return Ok(None);
            };
            let columns = column_of(alloc, Member::Int)?;
            Ok(Some(known_draft(alloc, columns)))
        }
        _ => Ok(None),
    }
}

/// What an expression means by its reading, as a root in its place.
#[cycle(walk)]
fn root_meaning(
    alloc: Global,
    spot: &Spot<'_>,
    locals: &Locals<'_>,
    place: RootPlace,
    tree: &Tree,
) -> Result<Option<Meaning>, AllocError>
    ensures { IfOk result (λ r. IfSome r (λ m. RootReads (at_of spot.now) (scope_of locals.now)
        place tree.now m)) }
{
    let Some(draft) = reads(alloc, spot, locals, tree)? else {
        return Ok(None);
    };
    let Some(meaning) = reading(alloc, spot, place, draft)? else {
        return Ok(None);
    };
    Ok(Some(meaning))
}

/// The type of an expression by its reading, as a root in its place.
#[cycle(walk)]
pub fn root_type(
    alloc: Global,
    spot: &Spot<'_>,
    locals: &Locals<'_>,
    place: RootPlace,
    tree: &Tree,
) -> Result<Option<Columns>, AllocError>
    ensures { IfOk result (λ r. IfSome r (λ c. (m : Meant)
        × RootReads (at_of spot.now) (scope_of locals.now) place tree.now m
        × (m.what ≡ what.Set c))) }
{
    let Some(meaning) = root_meaning(alloc, spot, locals, place, tree)? else {
        return Ok(None);
    };
    let Some(columns) = columns_of(meaning) else {
        return Ok(None);
    };
    Ok(Some(columns))
}

/// The type of a bound with its word by its reading.
#[cycle(walk)]
pub fn bound_type(
    alloc: Global,
    spot: &Spot<'_>,
    locals: &Locals<'_>,
    word: Option<Multiplicity>,
    tree: &Tree,
) -> Result<Option<Columns>, AllocError>
    ensures { IfOk result (λ r. IfSome r (λ c. BoundReads (at_of spot.now) (scope_of locals.now)
        word tree.now c)) }
{
    let place = RootPlace::Bound(word_of(word));
    let Some(columns) = root_type(alloc, spot, locals, place, tree)? else {
        return Ok(None);
    };
    Ok(Some(columns))
}

/// The types of the bounds of declarations by their readings.
#[cycle(walk)]
pub fn decl_types(
    alloc: Global,
    spot: &Spot<'_>,
    locals: &Locals<'_>,
    decls: &[Decl<Tree>],
) -> Result<Option<Items<Columns>>, AllocError>
    ensures { IfOk result (λ r. IfSome r (λ cs. DeclsRead (at_of spot.now) (scope_of locals.now)
        decls.now cs)) }
{
    let mut types = Items::new(alloc);
    for place in 0..decls.len() {
        let inner = Locals::Declared(&decls[..place], types.as_slice(), &*locals);
        let decl = &decls[place];
        let Some(columns) = bound_type(alloc, spot, &inner, decl.word, &decl.bound)? else {
            return Ok(None);
        };
        types.push(columns)?;
    }
    Ok(Some(types))
}

/// The types of the values of a `let` by their readings.
#[cycle(walk)]
fn values_read(
    alloc: Global,
    spot: &Spot<'_>,
    locals: &Locals<'_>,
    bindings: &[Binding<Tree>],
) -> Result<Option<Items<Columns>>, AllocError>
    ensures { IfOk result (λ r. IfSome r (λ cs. ValuesRead (at_of spot.now) (scope_of locals.now)
        bindings.now cs)) }
{
    let mut types = Items::new(alloc);
    for place in 0..bindings.len() {
        let inner = Locals::Bound(&bindings[..place], types.as_slice(), &*locals);
        let binding = &bindings[place];
        let value = &binding.value;
        let Some(columns) = root_type(alloc, spot, &inner, RootPlace::Value, value)? else {
            return Ok(None);
        };
        types.push(columns)?;
    }
    Ok(Some(types))
}

/// Whether the names of a formula are taken to stand for what the readings of its roots say.
#[cycle(walk)]
pub fn is_read(
    alloc: Global,
    spot: &Spot<'_>,
    locals: &Locals<'_>,
    tree: &Tree,
) -> Result<bool, AllocError>
    ensures { IfOk result (λ b. b ≡ true → IsRead (at_of spot.now) (scope_of locals.now)
        tree.now) }
{
    match tree {
        Tree::Parenthesis(_, inner) => {
            let is = is_read(alloc, spot, locals, inner.get())?;
            Ok(is)
        }
        Tree::Block(_, items) => {
            let is = are_read(alloc, spot, locals, items.as_slice())?;
            Ok(is)
        }
        Tree::Sequence(_, _) => sequence_is_read(alloc, spot, locals, tree),
        Tree::Implication(_, _, _, _) => implication_is_read(alloc, spot, locals, tree),
        Tree::Compare(_, _, _) => comparison_is_read(alloc, spot, locals, tree),
        Tree::Prefix(_, _, _) => prefix_is_read(alloc, spot, locals, tree),
        Tree::Infix(_, _) => row_is_read(alloc, spot, locals, tree),
        Tree::Let(_, _, _, _) => let_is_read(alloc, spot, locals, tree),
        Tree::Quantified(_, _, _, _, _) => quantified_is_read(alloc, spot, locals, tree),
        Tree::Name(_) => {
            let is = call_is_read(alloc, spot, locals, tree)?;
            Ok(is)
        }
        Tree::Join(_, _) => {
            let is = call_is_read(alloc, spot, locals, tree)?;
            Ok(is)
        }
        _ => Ok(false),
    }
}

/// Whether the items of a block are read so.
#[cycle(walk)]
fn are_read(
    alloc: Global,
    spot: &Spot<'_>,
    locals: &Locals<'_>,
    items: &[Tree],
) -> Result<bool, AllocError>
    ensures { IfOk result (λ b. b ≡ true → AreRead (at_of spot.now) (scope_of locals.now)
        items.now) }
{
    for place in 0..items.len() {
        let is = is_read(alloc, spot, locals, &items[place])?;
        if !is {
            return Ok(false);
        }
    }
    Ok(true)
}

/// Whether both sides of `;` are read so.
#[cycle(walk)]
fn sequence_is_read(
    alloc: Global,
    spot: &Spot<'_>,
    locals: &Locals<'_>,
    tree: &Tree,
) -> Result<bool, AllocError>
    ensures { IfOk result (λ b. b ≡ true → IsRead (at_of spot.now) (scope_of locals.now)
        tree.now) }
{
    match tree {
        Tree::Sequence(first, second) => {
            let first = first.get();
            let second = second.get();
            let begun = is_read(alloc, spot, locals, first)?;
            if !begun {
                return Ok(false);
            }
            let is = is_read(alloc, spot, locals, second)?;
            Ok(is)
        }
        _ => Ok(false),
    }
}

/// Whether the formulas of `=>` are read so.
#[cycle(walk)]
fn implication_is_read(
    alloc: Global,
    spot: &Spot<'_>,
    locals: &Locals<'_>,
    tree: &Tree,
) -> Result<bool, AllocError>
    ensures { IfOk result (λ b. b ≡ true → IsRead (at_of spot.now) (scope_of locals.now)
        tree.now) }
{
    match tree {
        Tree::Implication(_, condition, consequence, other) => {
            let first = condition.get();
            let second = consequence.get();
            let begun = is_read(alloc, spot, locals, first)?;
            if !begun {
                return Ok(false);
            }
            let further = is_read(alloc, spot, locals, second)?;
            if !further {
                return Ok(false);
            }
            match other {
                None => Ok(true),
                Some(other) => {
                    let third = other.get();
                    let is = is_read(alloc, spot, locals, third)?;
                    Ok(is)
                }
            }
        }
        _ => Ok(false),
    }
}

/// Whether a comparison, which is a root, is read so.
#[cycle(walk)]
fn comparison_is_read(
    alloc: Global,
    spot: &Spot<'_>,
    locals: &Locals<'_>,
    tree: &Tree,
) -> Result<bool, AllocError>
    ensures { IfOk result (λ b. b ≡ true → IsRead (at_of spot.now) (scope_of locals.now)
        tree.now) }
{
    match tree {
        Tree::Compare(comparison, left, right) => {
            let left = left.get();
            let right = right.get();
            let Some(first) = reads(alloc, spot, locals, left)? else {
                return Ok(false);
            };
            let Some(second) = reads(alloc, spot, locals, right)? else {
                put_away(first);
                return Ok(false);
            };
            let draft = pair_draft(alloc, compared_by(*comparison), first, second)?;
            let Some(_) = reading(alloc, spot, RootPlace::Formula, draft)? else {
                return Ok(false);
            };
            Ok(true)
        }
        _ => Ok(false),
    }
}

/// Whether an operator before a formula or a set is read so.
#[cycle(walk)]
fn prefix_is_read(
    alloc: Global,
    spot: &Spot<'_>,
    locals: &Locals<'_>,
    tree: &Tree,
) -> Result<bool, AllocError>
    ensures { IfOk result (λ b. b ≡ true → IsRead (at_of spot.now) (scope_of locals.now)
        tree.now) }
{
    match tree {
        Tree::Prefix(_, op, inner) => {
            let inner = inner.get();
            if is_test(*op) {
                let place = RootPlace::Value;
                let Some(_) = root_meaning(alloc, spot, locals, place, inner)? else {
                    return Ok(false);
                };
                return Ok(true);
            }
            if !is_logical(*op) {
                return Ok(false);
            }
            let is = is_read(alloc, spot, locals, inner)?;
            Ok(is)
        }
        _ => Ok(false),
    }
}

/// Whether a row of operators between formulas is read so.
#[cycle(walk)]
fn row_is_read(
    alloc: Global,
    spot: &Spot<'_>,
    locals: &Locals<'_>,
    tree: &Tree,
) -> Result<bool, AllocError>
    ensures { IfOk result (λ b. b ≡ true → IsRead (at_of spot.now) (scope_of locals.now)
        tree.now) }
{
    match tree {
        Tree::Infix(first, links) => {
            let first = first.get();
            let links = links.as_slice();
            if !is_logical_row(links) {
                return Ok(false);
            }
            let begun = is_read(alloc, spot, locals, first)?;
            if !begun {
                return Ok(false);
            }
            let is = links_are_read(alloc, spot, locals, links)?;
            Ok(is)
        }
        _ => Ok(false),
    }
}

/// Whether the formulas behind operators are read so.
#[cycle(walk)]
fn links_are_read(
    alloc: Global,
    spot: &Spot<'_>,
    locals: &Locals<'_>,
    links: &[(Infix, Tree)],
) -> Result<bool, AllocError>
    ensures { IfOk result (λ b. b ≡ true → LinksRead (at_of spot.now) (scope_of locals.now)
        links.now) }
{
    for place in 0..links.len() {
        let link = &links[place];
        let is = is_read(alloc, spot, locals, &link.1)?;
        if !is {
            return Ok(false);
        }
    }
    Ok(true)
}

/// Whether a `let` whose body is a formula is read so.
#[cycle(walk)]
fn let_is_read(
    alloc: Global,
    spot: &Spot<'_>,
    locals: &Locals<'_>,
    tree: &Tree,
) -> Result<bool, AllocError>
    ensures { IfOk result (λ b. b ≡ true → IsRead (at_of spot.now) (scope_of locals.now)
        tree.now) }
{
    match tree {
        Tree::Let(_, bindings, _, body) => {
            let bindings = bindings.as_slice();
            let body = body.get();
            let Some(types) = values_read(alloc, spot, locals, bindings)? else {
                return Ok(false);
            };
            let inner = Locals::Bound(bindings, types.as_slice(), &*locals);
            let is = is_read(alloc, spot, &inner, body)?;
            Ok(is)
        }
        _ => Ok(false),
    }
}

/// Whether a formula with variables is read so.
#[cycle(walk)]
fn quantified_is_read(
    alloc: Global,
    spot: &Spot<'_>,
    locals: &Locals<'_>,
    tree: &Tree,
) -> Result<bool, AllocError>
    ensures { IfOk result (λ b. b ≡ true → IsRead (at_of spot.now) (scope_of locals.now)
        tree.now) }
{
    match tree {
        Tree::Quantified(_, word, decls, _, body) => {
            if is_sum(*word) {
                return Ok(false);
            }
            let decls = decls.as_slice();
            let body = body.get();
            let Some(types) = decl_types(alloc, spot, locals, decls)? else {
                return Ok(false);
            };
            let inner = Locals::Declared(decls, types.as_slice(), &*locals);
            let is = is_read(alloc, spot, &inner, body)?;
            Ok(is)
        }
        _ => Ok(false),
    }
}

/// Whether a name or a join is read so as the call of a predicate.
#[cycle(walk)]
fn call_is_read(
    alloc: Global,
    spot: &Spot<'_>,
    locals: &Locals<'_>,
    tree: &Tree,
) -> Result<bool, AllocError>
    ensures { MayCall tree.now → IfOk result (λ b. b ≡ true → IsRead (at_of spot.now)
        (scope_of locals.now) tree.now) }
{
    let Some(_) = root_meaning(alloc, spot, locals, RootPlace::Formula, tree)? else {
        return Ok(false);
    };
    Ok(true)
}
