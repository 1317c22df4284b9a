//! Whether the declaration of a field holds at a position.

ghost use Rattle.std.specs.Prelude.{◌≡◌, ◌↔◌, ℕ, List, IfOk, IsTrue};
ghost use Rattle.core_meaning.specs.Declarations.{FieldDeclared};
ghost use Rattle.eval_context.specs.Settings.{world};
ghost use Rattle.eval_steps.specs.Judged.{bodies, IsFound};
ghost use Rattle.eval_trace.specs.Asked.{Entries, Values, IsOwned, AreBounded, AreDifferent, ListIs, IsListed, IsAlone, FieldIs};

use crate::sigs::{shares, sig_list};
use core_meaning::Environment;
use core_tree::{Bound, Field, FieldBound, FieldList, RelationOp};
use eval_sets::{EvaluationFault, rows_after};
use eval_steps::{DEEP, Held, Judge, atom_at, combined, is_inside, nothing, relation_at, set_of};
use eval_tree::is_within;

/// The fields of the model.
pub fn field_list<'b>(judge: &'b Judge<'_>) -> &'b FieldList
    ensures { result.now ≡ judge.now.model.fields }
{
    &judge.setting().model().fields
}

/// The set of a field at a position: fields' relations come after those of the model's sigs.
fn entries_at<'a>(
    judge: &Judge<'a>,
    place: usize,
    position: u64,
) -> Result<Held<'a>, EvaluationFault>
    ensures { IfOk result (λ held. IsFound held (Entries judge.now position place)) }
{
    let sigs = sig_list(judge);
    match sigs.len().checked_add(place) {
        Some(number) => Ok(relation_at(judge, number, position)),
        None => Err(EvaluationFault::Unfit),
    }
}

/// What an atom has in a field at a position.
fn values_at<'a>(
    judge: &Judge<'a>,
    place: usize,
    atom: u32,
    position: u64,
) -> Result<Held<'a>, EvaluationFault>
    ensures { IfOk result (λ held. IsFound held (Values judge.now position place atom)) }
{
    let found = entries_at(judge, place, position)?;
    let set = set_of(&found);
    let begin = [atom];
    let rest = rows_after(judge.alloc(), set, &begin)?;
    Ok(Held::Owned(rest))
}

/// Whether each tuple begins with a member of a sig.
fn is_owned(
    judge: &Judge,
    place: usize,
    owner: usize,
    position: u64,
) -> Result<bool, EvaluationFault>
    ensures { IfOk result (λ b. IsTrue b ↔ IsOwned judge.now position place owner) }
{
    let set = entries_at(judge, place, position)?;
    let atoms = relation_at(judge, owner, position);
    let begun = combined(judge, RelationOp::LeftRestrict, &atoms, &set)?;
    Ok(is_inside(&set, &begun))
}

/// Whether what each member of a sig has in a field lies in the bound and has its multiplicities.
fn values_hold(
    judge: &Judge,
    place: usize,
    owner: usize,
    bound: &Bound,
    position: u64,
) -> Result<bool, EvaluationFault>
    ensures { IfOk result (λ b. IsTrue b ↔ AreBounded judge.now position place owner bound.now) }
{
    let found = relation_at(judge, owner, position);
    let atoms = set_of(&found);
    if atoms.arity() != 1 {
        return Ok(true);
    }
    for number in 0..atoms.len() {
        let atom = atom_at(atoms, number);
        let held = values_at(judge, place, atom, position)?;
        let value = set_of(&held);
        let none = Environment::Empty;
        let scope = Environment::Atom(0, atom, &none);
        let word = bound.multiplicity;
        let within = is_within(&*judge, value, word, &bound.expr, &scope, position, DEEP)?;
        if !within {
            return Ok(false);
        }
    }
    Ok(true)
}

/// Whether different members of a sig have nothing in common in a field.
fn values_differ(
    judge: &Judge,
    place: usize,
    owner: usize,
    position: u64,
) -> Result<bool, EvaluationFault>
    ensures { IfOk result (λ b. IsTrue b ↔ AreDifferent judge.now position place owner) }
{
    let found = relation_at(judge, owner, position);
    let atoms = set_of(&found);
    if atoms.arity() != 1 {
        return Ok(true);
    }
    let mut all = nothing(judge);
    for number in 0..atoms.len() {
        let atom = atom_at(atoms, number);
        let value = values_at(judge, place, atom, position)?;
        let some = shares(judge, &all, &value)?;
        if some {
            return Ok(false);
        }
        let more = combined(judge, RelationOp::Union, &all, &value)?;
        all = more;
    }
    Ok(true)
}

/// The same where it is asked for.
fn values_apart(
    judge: &Judge,
    asked: bool,
    place: usize,
    owner: usize,
    position: u64,
) -> Result<bool, EvaluationFault>
    ensures { IfOk result (λ b. IsTrue b ↔ (IsTrue asked →
        AreDifferent judge.now position place owner)) }
{
    if !asked {
        return Ok(true);
    }
    let differ = values_differ(judge, place, owner, position)?;
    Ok(differ)
}

/// The number of the `disj` list of what a field's text says.
fn list_of(declared: &Option<FieldBound>) -> Option<u32>
    ensures { ListIs declared.now result }
{
    match declared {
        Some(bound) => bound.disj_list,
        None => None,
    }
}

/// Whether two owners are the same.
fn is_same(a: Option<u32>, b: Option<u32>) -> bool
    ensures { IsTrue result ↔ (a ≡ b) }
{
    a == b
}

/// Whether two fields stand in one `disj` list.
fn are_listed(a: &Field, b: &Field) -> bool
    ensures { IsTrue result ↔ IsListed a.now b.now }
{
    let same = is_same(a.owner, b.owner);
    if !same {
        return false;
    }
    match list_of(&a.declared) {
        None => false,
        Some(list) => match list_of(&b.declared) {
            None => false,
            Some(other) => list == other,
        },
    }
}

/// Whether two fields share a tuple.
fn entries_share(
    judge: &Judge,
    place: usize,
    other: usize,
    position: u64,
) -> Result<bool, EvaluationFault>
    ensures { IfOk result (λ b. IsTrue b ↔ ((t : List ℕ) × Entries judge.now position place t
        × Entries judge.now position other t)) }
{
    let set = entries_at(judge, place, position)?;
    let others = entries_at(judge, other, position)?;
    let some = shares(judge, &set, &others)?;
    Ok(some)
}

/// Whether a field whose tuples begin with an atom shares no tuple with another of its `disj` list.
fn is_alone(
    judge: &Judge,
    place: usize,
    field: &Field,
    position: u64,
) -> Result<bool, EvaluationFault>
    ensures { IfOk result (λ b. (owner : ℕ) → IsOwned judge.now position place owner → IsTrue b
        ↔ IsAlone judge.now position place field.now) }
{
    let fields = field_list(judge);
    for number in 0..fields.len() {
        if number == place {
            continue;
        }
        let other = fields.get(number);
        let listed = are_listed(field, other);
        if !listed {
            continue;
        }
        let some = entries_share(judge, place, number, position)?;
        if some {
            return Ok(false);
        }
    }
    Ok(true)
}

/// Whether the declaration of a field of a sig holds at a position.
fn declared_holds(
    judge: &Judge,
    place: usize,
    field: &Field,
    owner: usize,
    declared: &FieldBound,
    position: u64,
) -> Result<bool, EvaluationFault>
    ensures { IfOk result (λ b. field.now.declared ≡ Some declared.now → IsTrue b
        ↔ FieldDeclared judge.now.model (world judge.now) (bodies judge.now) position place
        field.now owner declared.now) }
{
    let owned = is_owned(judge, place, owner, position)?;
    if !owned {
        return Ok(false);
    }
    let bounded = values_hold(judge, place, owner, &declared.bound, position)?;
    if !bounded {
        return Ok(false);
    }
    let differ = values_apart(judge, declared.disj_values, place, owner, position)?;
    if !differ {
        return Ok(false);
    }
    let alone = is_alone(judge, place, field, position)?;
    Ok(alone)
}

/// Whether a field's declaration holds at a position.
pub fn field_holds(
    judge: &Judge,
    place: usize,
    field: &Field,
    position: u64,
) -> Result<bool, EvaluationFault>
    ensures { IfOk result (λ b. IsTrue b ↔ FieldIs judge.now position place field.now) }
{
    match field.owner {
        None => Ok(true),
        Some(owner) => match &field.declared {
            None => Ok(true),
            Some(declared) => {
                declared_holds(judge, place, field, owner as usize, declared, position)
            }
        },
    }
}
