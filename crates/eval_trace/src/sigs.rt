//! Whether the declaration of a sig holds at a position.

ghost use Rattle.std.specs.Prelude.{◌≡◌, ◌↔◌, ℕ, List, IfOk, IsTrue, MatchOption};
ghost use Rattle.core_tuples.specs.Sets.{In};
ghost use Rattle.core_tree.specs.declared.model.SigKind.TheVariants.{Extends};
ghost use Rattle.core_meaning.specs.Declarations.{IsChild, IsPlaced};
ghost use Rattle.core_meaning.specs.Operators.{IsInside};
ghost use Rattle.eval_context.specs.Settings.{world};
ghost use Rattle.eval_steps.specs.Judged.{bodies, IsFound, set_in};
ghost use Rattle.eval_trace.specs.Asked.{Members, InParent, InParents, AreApart, InChildren, IsFilled, HoldsForEach, HasAppended, SigIs};

use core_meaning::Environment;
use core_tree::{Column, Formula, Quantity, RelationOp, Sig, SigKind, SigList};
use eval_sets::{EvaluationFault, has_multiplicity};
use eval_steps::{
    DEEP, Held, Judge, atom_at, combined, has, integers_at, is_inside, nothing, relation_at, set_of,
};
use eval_tree::holds_in;

/// The sigs of the model.
pub fn sig_list<'b>(judge: &'b Judge<'_>) -> &'b SigList
    ensures { result.now ≡ judge.now.model.sigs }
{
    &judge.setting().model().sigs
}

/// The members of a parent at a position.
fn column_at<'a>(
    judge: &Judge<'a>,
    column: Column,
    position: u64,
) -> Result<Held<'a>, EvaluationFault>
    ensures { IfOk result (λ held. IsFound held (InParent judge.now position column)) }
{
    match column {
        Column::Sig(sig) => Ok(relation_at(judge, sig as usize, position)),
        Column::Int => integers_at(judge),
    }
}

/// The members of some parents at a position.
fn columns_at<'a>(
    judge: &Judge<'a>,
    columns: &[Column],
    position: u64,
) -> Result<Held<'a>, EvaluationFault>
    ensures { IfOk result (λ held. IsFound held (InParents judge.now position columns.now)) }
{
    match columns.split_first() {
        None => Ok(nothing(judge)),
        Some((first, rest)) => {
            let here = column_at(judge, *first, position)?;
            let others = columns_at(judge, rest, position)?;
            combined(judge, RelationOp::Union, &here, &others)
        }
    }
}

/// Whether the members of a sig are members of another.
fn lies_in_sig(judge: &Judge, place: usize, parent: usize, position: u64) -> bool
    ensures { IsTrue result ↔ IsInside (Members judge.now position place)
        (Members judge.now position parent) }
{
    let set = relation_at(judge, place, position);
    let above = relation_at(judge, parent, position);
    is_inside(&set, &above)
}

/// Whether the members of a sig are members of some parents.
fn lies_in_parents(
    judge: &Judge,
    place: usize,
    parents: &[Column],
    position: u64,
) -> Result<bool, EvaluationFault>
    ensures { IfOk result (λ b. IsTrue b ↔ IsInside (Members judge.now position place)
        (InParents judge.now position parents.now)) }
{
    let set = relation_at(judge, place, position);
    let above = columns_at(judge, parents, position)?;
    let lies = is_inside(&set, &above);
    Ok(lies)
}

/// Whether a sig's set lies inside its parent, or inside the union of its parents.
fn is_placed(
    judge: &Judge,
    place: usize,
    kind: &SigKind,
    position: u64,
) -> Result<bool, EvaluationFault>
    ensures { IfOk result (λ b. IsTrue b ↔ IsPlaced judge.now.model (world judge.now)
        (bodies judge.now) position place kind.now) }
{
    match kind {
        SigKind::Top => Ok(true),
        SigKind::Extends(parent) => Ok(lies_in_sig(judge, place, *parent as usize, position)),
        SigKind::Subset(parents) => {
            let list = parents.as_slice();
            lies_in_parents(judge, place, list, position)
        }
    }
}

/// Whether a sig is a child of another.
fn is_child(sig: &Sig, parent: usize) -> bool
    ensures { IsTrue result ↔ (sig.now.kind ≡ Extends parent) }
{
    match &sig.kind {
        SigKind::Extends(other) => *other as usize == parent,
        _ => false,
    }
}

/// Whether two sets share a tuple.
pub fn shares(judge: &Judge, a: &Held, b: &Held) -> Result<bool, EvaluationFault>
    ensures { IfOk result (λ r. IsTrue r ↔ ((t : List ℕ) × In t (set_in a.now)
        × In t (set_in b.now))) }
{
    let common = combined(judge, RelationOp::Intersection, a, b)?;
    Ok(has(Quantity::Some, &common))
}

/// The members of the children of a sig, or none where two of them share one.
fn children_at<'a>(
    judge: &Judge<'a>,
    parent: usize,
    position: u64,
) -> Result<Option<Held<'a>>, EvaluationFault>
    ensures { IfOk result (λ o. MatchOption o (¬ AreApart judge.now position parent)
        (λ held. AreApart judge.now position parent
        × IsFound held (InChildren judge.now position parent))) }
{
    let sigs = sig_list(judge);
    let mut all = nothing(judge);
    for place in 0..sigs.len() {
        let sig = sigs.get(place);
        let child = is_child(sig, parent);
        if !child {
            continue;
        }
        let members = relation_at(judge, place, position);
        let some = shares(judge, &all, &members)?;
        if some {
            return Ok(None);
        }
        let more = combined(judge, RelationOp::Union, &all, &members)?;
        all = more;
    }
    Ok(Some(all))
}

/// Whether a sig has a child.
fn has_child(judge: &Judge, parent: usize) -> bool
    ensures { IsTrue result ↔ ((c : ℕ) × IsChild judge.now.model.sigs parent c) }
{
    let sigs = sig_list(judge);
    for place in 0..sigs.len() {
        let sig = sigs.get(place);
        let child = is_child(sig, parent);
        if child {
            return true;
        }
    }
    false
}

/// Whether the children of a sig are disjoint, and are all of it where it is abstract.
fn children_hold(
    judge: &Judge,
    parent: usize,
    sig: &Sig,
    position: u64,
) -> Result<bool, EvaluationFault>
    ensures { IfOk result (λ b. IsTrue b ↔ (AreApart judge.now position parent
        × IsFilled judge.now position parent sig.now)) }
{
    let found = children_at(judge, parent, position)?;
    match found {
        None => Ok(false),
        Some(all) => {
            if !sig.is_abstract {
                return Ok(true);
            }
            let some = has_child(judge, parent);
            if !some {
                return Ok(true);
            }
            let set = relation_at(judge, parent, position);
            Ok(is_inside(&set, &all))
        }
    }
}

/// Whether a formula holds for each member of a sig as `this`.
fn holds_for_each(
    judge: &Judge,
    place: usize,
    fact: &Formula,
    position: u64,
) -> Result<bool, EvaluationFault>
    ensures { IfOk result (λ b. IsTrue b ↔ HoldsForEach judge.now position place fact.now) }
{
    let found = relation_at(judge, place, position);
    let set = set_of(&found);
    if set.arity() != 1 {
        return Ok(true);
    }
    for number in 0..set.len() {
        let atom = atom_at(set, number);
        let none = Environment::Empty;
        let scope = Environment::Atom(0, atom, &none);
        let truth = holds_in(&*judge, fact, &scope, position, DEEP)?;
        if !truth {
            return Ok(false);
        }
    }
    Ok(true)
}

/// Whether the appended fact of a sig holds.
fn appended_holds(
    judge: &Judge,
    place: usize,
    appended: &Option<Formula>,
    position: u64,
) -> Result<bool, EvaluationFault>
    ensures { IfOk result (λ b. IsTrue b ↔ HasAppended judge.now position place appended.now) }
{
    match appended {
        None => Ok(true),
        Some(fact) => holds_for_each(judge, place, fact, position),
    }
}

/// Whether a sig lies where it is declared, its children are disjoint and fill it where it is
/// abstract, it has its multiplicity, and its appended fact holds.
pub fn sig_holds(
    judge: &Judge,
    place: usize,
    sig: &Sig,
    position: u64,
) -> Result<bool, EvaluationFault>
    ensures { IfOk result (λ b. IsTrue b ↔ SigIs judge.now position place sig.now) }
{
    let found = relation_at(judge, place, position);
    let set = set_of(&found);
    let many = has_multiplicity(sig.multiplicity, set);
    if !many {
        return Ok(false);
    }
    let placed = is_placed(judge, place, &sig.kind, position)?;
    if !placed {
        return Ok(false);
    }
    let children = children_hold(judge, place, sig, position)?;
    if !children {
        return Ok(false);
    }
    let appended = appended_holds(judge, place, &sig.appended, position)?;
    Ok(appended)
}
