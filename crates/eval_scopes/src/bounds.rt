//! Upper bounds of sigs: which numbers of the universe a sig may have.

ghost use Rattle.std.specs.Prelude.{◌≡◌, ◌↔◌, ◌∷◌, [], ◌+◌, ◌-◌, ◌<◌, ◌≤◌, List, take, length, IfOk, IsTrue, slice_get};
ghost use Rattle.core_tree.specs.Types.{standing, sig_rows, parent_rows};
ghost use Rattle.core_tree.specs.declared.model.Column.TheVariants.{Sig as SigColumn, Int as IntColumn};
ghost use Rattle.core_meaning.specs.Kept.{first_atom, or_zero_number, top_above, IsAtomOf, InColumnBound, InSigBound};
ghost use Rattle.eval_scopes.specs.Asked.{parent_in, var_parent_in, HasRow, HasRowOf, IsOwnAtom, IsOwn};

use core_meaning::{SigScope, SigScopeList};
use core_tree::{Column, ParentList, Sig, SigKind, SigList};
use eval_context::sizes::count_atoms;
use eval_context::{Setting, integer_count};
use eval_sets::EvaluationFault;

/// The parent that a sig extends.
fn parent(sigs: &SigList, sig: usize) -> Option<u32>
    ensures { result ≡ parent_in sigs.now sig }
{
    if sig >= sigs.len() {
        return None;
    }
    let there = sigs.get(sig);
    match &there.kind {
        SigKind::Top => None,
        SigKind::Extends(above) => Some(*above),
        SigKind::Subset(_) => None,
    }
}

/// The parent that a sig extends, where the sig is `var`.
fn var_parent(sigs: &SigList, sig: usize) -> Option<u32>
    ensures { result ≡ var_parent_in sigs.now sig }
{
    if sig >= sigs.len() {
        return None;
    }
    let there = sigs.get(sig);
    if there.is_var {
        return parent(sigs, sig);
    }
    None
}

/// As which sig a sig stands in a type, going up at most so far.
fn standing(sigs: &SigList, more: usize, sig: usize) -> usize
    ensures { result ≡ standing sigs.now more sig }
{
    if more == 0 {
        return sig;
    }
    match var_parent(sigs, sig) {
        Some(above) => standing(sigs, more - 1, above as usize),
        None => sig,
    }
}

/// The top-level sig above a sig, going up at most so far.
fn top_above(sigs: &SigList, more: usize, sig: usize) -> usize
    ensures { result ≡ top_above sigs.now more sig }
{
    if more == 0 {
        return sig;
    }
    match parent(sigs, sig) {
        Some(above) => top_above(sigs, more - 1, above as usize),
        None => sig,
    }
}

/// The entries before a place.
fn before(numbers: &[SigScope], sig: usize) -> &[SigScope]
    ensures { result.now ≡ take sig numbers.now }
{
    if sig >= numbers.len() {
        return numbers;
    }
    let (front, _) = numbers.split_at(sig);
    front
}

/// The first atom of a top-level sig.
fn first_atom(numbers: &SigScopeList, sig: usize) -> Result<u32, EvaluationFault>
    ensures { IfOk result (λ n. n ≡ first_atom numbers.now sig) }
{
    let entries = before(numbers.as_slice(), sig);
    match count_atoms(entries) {
        Some(count) => Ok(count),
        None => Err(EvaluationFault::Unfit),
    }
}

/// The number that a sig's scope has, or 0.
fn number_of(numbers: &SigScopeList, sig: usize) -> u64
    ensures { result ≡ or_zero_number (slice_get numbers.now sig) }
{
    if sig >= numbers.len() {
        return 0;
    }
    match numbers.get(sig).number {
        Some(number) => number,
        None => 0,
    }
}

/// Whether an atom is one of so many from one on.
fn is_among(first: u32, number: u64, atom: u32) -> bool
    ensures { IsTrue result ↔ ((first ≤ atom) × (atom < first + number)) }
{
    if atom < first {
        return false;
    }
    if u64::from(atom - first) < number {
        return true;
    }
    false
}

/// Whether an atom is one of the top-level sig above a sig.
fn is_atom_of(setting: &Setting, sig: usize, atom: u32) -> Result<bool, EvaluationFault>
    ensures { IfOk result (λ b. IsTrue b ↔ IsAtomOf setting.now.model setting.now.scopes sig atom) }
{
    let model = setting.model();
    let scopes = setting.scopes();
    let top = top_above(&model.sigs, model.sigs.len(), sig);
    let first = first_atom(&scopes.numbers, top)?;
    let number = number_of(&scopes.numbers, top);
    Ok(is_among(first, number, atom))
}

/// Whether a number of the universe is an integer's.
fn is_integer(setting: &Setting, atom: u32) -> bool
    ensures { IsTrue result ↔ InColumnBound setting.now.model setting.now.scopes IntColumn atom }
{
    let first = setting.atoms();
    let bits = setting.bits();
    let count = integer_count(bits);
    is_among(first, u64::from(count), atom)
}

/// Whether a number of the universe is bounded by a sig itself, as it stands in a type.
fn is_of_sig(setting: &Setting, sig: usize, atom: u32) -> Result<bool, EvaluationFault>
    ensures { IfOk result (λ b. IsTrue b ↔ HasRow setting.now
        ((SigColumn (standing setting.now.model.sigs (length setting.now.model.sigs) sig) ∷ []) ∷
        []) atom) }
{
    let model = setting.model();
    let column = standing(&model.sigs, model.sigs.len(), sig);
    is_atom_of(setting, column, atom)
}

/// Whether a row of a sig's type bounds a number of the universe.
#[cycle(rows)]
fn has_row(setting: &Setting, more: usize, sig: usize, atom: u32) -> Result<bool, EvaluationFault>
    ensures { IfOk result (λ b. IsTrue b ↔ HasRow setting.now
        (sig_rows setting.now.model.sigs more sig) atom) }
{
    let model = setting.model();
    if more == 0 {
        return Ok(false);
    }
    if sig >= model.sigs.len() {
        return Ok(false);
    }
    let there = model.sigs.get(sig);
    match &there.kind {
        SigKind::Top => is_of_sig(setting, sig, atom),
        SigKind::Extends(_) => is_of_sig(setting, sig, atom),
        SigKind::Subset(parents) => has_row_of(setting, more - 1, parents, atom),
    }
}

/// Whether a row of a parent's type does.
#[cycle(rows)]
fn has_column(
    setting: &Setting,
    more: usize,
    column: Column,
    atom: u32,
) -> Result<bool, EvaluationFault>
    ensures { IfOk result (λ b. IsTrue b ↔ HasRow setting.now
        (parent_rows (λ p. sig_rows setting.now.model.sigs more p) column) atom) }
{
    match column {
        Column::Sig(sig) => has_row(setting, more, sig as usize, atom),
        Column::Int => Ok(is_integer(setting, atom)),
    }
}

/// Whether a row of the type of one of some parents does.
#[cycle(rows)]
fn has_row_of(
    setting: &Setting,
    more: usize,
    parents: &ParentList,
    atom: u32,
) -> Result<bool, EvaluationFault>
    ensures { IfOk result (λ b. IsTrue b ↔ HasRowOf setting.now more parents.now atom) }
{
    let count = parents.len();
    for place in 0..count {
        let column = parents.get(place);
        let has = has_column(setting, more, *column, atom)?;
        if has {
            return Ok(true);
        }
    }
    Ok(false)
}

/// Whether a number of the universe is the one that a literal's sig of this kind has.
fn is_own_atom(
    setting: &Setting,
    place: usize,
    kind: &SigKind,
    atom: u32,
) -> Result<bool, EvaluationFault>
    ensures { IfOk result (λ b. IsTrue b ↔ IsOwnAtom setting.now place kind.now atom) }
{
    match kind {
        SigKind::Top => Ok(true),
        SigKind::Extends(above) => {
            let scopes = setting.scopes();
            let first = first_atom(&scopes.numbers, *above as usize)?;
            Ok(is_nth(first, place, *above, atom))
        }
        SigKind::Subset(_) => Ok(true),
    }
}

/// Whether a number of the universe is a literal's own, where the sig is that of a literal.
fn is_own(setting: &Setting, place: usize, sig: &Sig, atom: u32) -> Result<bool, EvaluationFault>
    ensures { IfOk result (λ b. IsTrue b ↔ IsOwn setting.now place sig.now atom) }
{
    match &sig.origin {
        Some(_) => Ok(true),
        None => is_own_atom(setting, place, &sig.kind, atom),
    }
}

/// Whether an atom comes as far after the first as a sig after the one that follows its parent.
fn is_nth(first: u32, place: usize, above: u32, atom: u32) -> bool
    ensures { IsTrue result ↔ (atom ≡ first + (place - above - 1)) }
{
    let after = (place as u64)
        .saturating_sub(u64::from(above))
        .saturating_sub(1);
    if atom < first {
        return false;
    }
    if u64::from(atom - first) == after {
        return true;
    }
    false
}

/// Whether a number of the universe lies in the upper bound of a sig.
pub fn is_bounded(
    setting: &Setting,
    place: usize,
    sig: &Sig,
    atom: u32,
) -> Result<bool, EvaluationFault>
    ensures { IfOk result (λ b. IsTrue b ↔ InSigBound setting.now.model setting.now.scopes place
        sig.now atom) }
{
    let model = setting.model();
    let own = is_own(setting, place, sig, atom)?;
    if !own {
        return Ok(false);
    }
    has_row(setting, model.sigs.len(), place, atom)
}
