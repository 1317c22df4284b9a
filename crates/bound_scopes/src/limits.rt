//! The scopes of a command, or the first of the rules on scopes that it breaks.

ghost use Rattle.std.specs.Prelude.{◌≡◌, ◌<◌, ◌≤◌, ◌+◌, ◌^◌, ◌||◌, nat_lt, if◌then◌else◌, [], ◌∷◌, length, slice_get, All, Contains, Err, IfOk, IfErr, IfSome};
ghost use Rattle.std.specs.List.{list_any};
ghost use Rattle.base_types.specs.declared.place.Rule.TheVariants as rule;
ghost use Rattle.base_types.specs.declared.fault.Fault.TheVariants.{Refused, Memory};
ghost use Rattle.core_tree.specs.declared.model.Sig.{Sig};
ghost use Rattle.core_tree.specs.declared.model.Field.{Field};
ghost use Rattle.core_tree.specs.declared.model.Origin.{Origin};
ghost use Rattle.core_meaning.specs.Kept.{atom_count};
ghost use Rattle.bound_definitions.specs.Numbers.{AreScopesBy, bits_in, steps_in};
ghost use Rattle.bound_definitions.specs.Places.{IsKept};
ghost use Rattle.bound_definitions.specs.Rules.{bad_scopes, exact_vars, conflicts, bad_bitwidth, bad_steps, too_many_atoms};
ghost use Rattle.bound_definitions.specs.Trees.{counted};
ghost use Rattle.bound_definitions.specs.Refusals.{Breaks, BreaksTrees, AreKept, IsFirstBroken, command_rules, tree_rules, IsRefusal};
ghost use Rattle.bound_numbers.specs.Listed.{number_or, outside_of};
ghost use Rattle.bound_scopes.specs.Limits.{AreScopes, IsAt, IsFaultOf, IsScopeFault, no_command};
ghost use Rattle.bound_scopes.specs.Numbers.{AreSigScopes, IsListed};

use crate::asking::{ask, refused};
use crate::atoms::fits;
use crate::counted::counted;
use crate::entries::{bad_scope, conflict, exact_var};
use crate::keeps::{are_listed, are_sig_scopes};
use crate::trees::{check_depth, check_numbers, check_past};
use base_types::limits::{ATOMS, BITWIDTH, STEPS};
use base_types::{Fault, Position, Rule};
use bound_numbers::{Asked, Numbered, first_entry, numbers};
use core_meaning::{Scopes, SigScopeList};
use core_tree::{Command, FieldList, Model, ScopeEntryList, SigList};
use std::alloc::Global;

/// The bitwidth where none is listed.
const DEFAULT_BITS: u32 = 4;

/// The states where none are listed.
const DEFAULT_STEPS: u32 = 10;

/// The place of a command that isn't there: the beginning of the root.
const ROOT: Position = Position {
    module: 0,
    line: 1,
    column: 1,
};

/// The scopes of a command: for each sig its number of atoms, where it has one, and whether it has
/// just so many; the bitwidth; and how many states a lasso has at most, which is one where nothing
/// is `var`.
///
/// A refusal is the first broken one of these rules, in this order, at its first place:
/// no command of that number (S60), a listed name that is not one sig, is a subset sig or is listed
/// before (S61), `exactly` on a `var` sig (S62), a number that contradicts `one` or `lone` (S63), a
/// bitwidth or a number of states out of range (S64, S65), too many atoms (S66), a number outside
/// the bitwidth (S46), too many nested past operators (S48), and too great a depth once calls are
/// written out (S49).
pub fn scopes(alloc: Global, model: &Model, command: u32) -> Result<Scopes, Fault>
    ensures ok { IfOk result (λ s. AreScopes model.now s) }
    ensures listed { IfSome (slice_get model.now.commands command)
        (λ c. IfOk result (λ s. All (IsListed s.numbers) c.scope)) }
    ensures by { IfSome (slice_get model.now.commands command)
        (λ c. IfOk result (AreScopesBy model.now c)) }
    ensures kept { IfSome (slice_get model.now.commands command)
        (λ c. IfOk result (λ s. AreKept (Breaks model.now c s) command_rules)) }
    ensures absent { length model.now.commands ≤ command → result ≡ Err (Refused no_command) }
    ensures refused { IfSome (slice_get model.now.commands command)
        (λ c. IfErr result (IsFaultOf (IsRefusal model.now c))) }
    ensures fault { command < length model.now.commands → IfErr result (λ e. IsScopeFault e) }
{
    if command as usize >= model.commands.len() {
        return Err(refused(Rule::NoCommand, ROOT));
    }
    let chosen = model.commands.get(command as usize);
    scopes_of(alloc, model, chosen)
}

/// Whether the numbers of the sigs are what the declarations of the sigs ask and the command lists.
/// The rules on scopes give no others; they are tested once more on the numbers themselves, and where
/// this did not hold the answer would be want of memory.
fn are_kept(sigs: &SigList, entries: &ScopeEntryList, numbers: &SigScopeList) -> Result<(), Fault>
    requires { length numbers.now ≡ length sigs.now }
    ensures sigs { IfOk result (λ _. AreSigScopes sigs.now numbers.now) }
    ensures listed { IfOk result (λ _. All (IsListed numbers.now) entries.now) }
    ensures fault { IfErr result (λ e. e ≡ Memory) }
{
    if !are_sig_scopes(sigs, numbers) {
        return Err(Fault::Memory);
    }
    if !are_listed(numbers.as_slice(), entries) {
        return Err(Fault::Memory);
    }
    Ok(())
}

/// The scopes of a command of the model.
fn scopes_of(alloc: Global, model: &Model, command: &Command) -> Result<Scopes, Fault>
    ensures ok { IfOk result (λ s. AreScopes model.now s) }
    ensures listed { IfOk result (λ s. All (IsListed s.numbers) command.now.scope) }
    ensures by { IfOk result (AreScopesBy model.now command.now) }
    ensures kept { IfOk result (λ s. AreKept (Breaks model.now command.now s) command_rules) }
    ensures refused { IfErr result (IsFaultOf (IsRefusal model.now command.now)) }
{
    let numbers = numbers(alloc, &model.sigs, &command.scope)?;
    check_entries(alloc, &model.sigs, &command.scope)?;
    check_exact(&model.sigs, &command.scope)?;
    check_words(&model.sigs, &command.scope)?;
    let bits = bits_of(&command.scope)?;
    let steps = steps_of(&command.scope)?;
    check_atoms(&numbers, bits, command.keyword)?;
    check_trees(alloc, model, command, bits)?;
    are_kept(&model.sigs, &command.scope, &numbers)?;
    let states = states_of(model, steps);
    Ok(Scopes {
        numbers,
        bits,
        states,
    })
}

/// Asks that each entry may stand where it stands (S61).
fn check_entries(alloc: Global, sigs: &SigList, entries: &ScopeEntryList) -> Result<(), Fault>
    ensures ok { IfOk result (λ _. IsKept (Contains (bad_scopes sigs.now entries.now))) }
    ensures refused { IfErr result
        (IsFaultOf (IsAt rule.BadScope (Contains (bad_scopes sigs.now entries.now)))) }
{
    let found = bad_scope(alloc, sigs.as_slice(), entries)?;
    ask(Rule::BadScope, found)
}

/// Asks that no `var` sig has just a number (S62).
fn check_exact(sigs: &SigList, entries: &ScopeEntryList) -> Result<(), Fault>
    ensures ok { IfOk result (λ _. IsKept (Contains (exact_vars sigs.now entries.now))) }
    ensures refused { IfErr result
        (IsFaultOf (IsAt rule.ExactVar (Contains (exact_vars sigs.now entries.now)))) }
{
    let found = exact_var(sigs.as_slice(), entries);
    ask(Rule::ExactVar, found)
}

/// Asks that no number contradicts the word before a sig (S63).
fn check_words(sigs: &SigList, entries: &ScopeEntryList) -> Result<(), Fault>
    ensures ok { IfOk result (λ _. IsKept (Contains (conflicts sigs.now entries.now))) }
    ensures refused { IfErr result
        (IsFaultOf (IsAt rule.ScopeConflict (Contains (conflicts sigs.now entries.now)))) }
{
    let found = conflict(sigs.as_slice(), entries);
    ask(Rule::ScopeConflict, found)
}

/// The number of an entry in its range, or the refusal at its place.
fn in_range(rule: Rule, given: Option<Numbered>, default: u32, greatest: u32) -> Result<u32, Fault>
    requires default { (1 ≤ default) × (default ≤ greatest) }
    ensures range { IfOk result (λ n. (1 ≤ n) × (n ≤ greatest)) }
    ensures is { IfOk result (λ n. n ≡ number_or given default) }
    ensures ok { IfOk result (λ _. outside_of greatest given ≡ []) }
    ensures refused { IfErr result (λ e. (at : Origin) × (outside_of greatest given ≡ at ∷ [])
        × (e ≡ Refused (record { rule = rule; place = at.place }))) }
{
    match given {
        None => Ok(default),
        Some(entry) => {
            if is_outside(entry.number, greatest) {
                return Err(refused(rule, entry.place));
            }
            Ok(entry.number)
        }
    }
}

/// Whether a number is outside 1 to a limit.
fn is_outside(number: u32, greatest: u32) -> bool
    ensures { result ≡ (nat_lt number 1 || nat_lt greatest number) }
{
    number < 1 || number > greatest
}

/// The bitwidth, or S64.
fn bits_of(entries: &ScopeEntryList) -> Result<u32, Fault>
    ensures range { IfOk result (λ n. (1 ≤ n) × (n ≤ 12)) }
    ensures is { IfOk result (λ n. n ≡ bits_in entries.now) }
    ensures ok { IfOk result (λ _. IsKept (Contains (bad_bitwidth entries.now))) }
    ensures refused { IfErr result
        (IsFaultOf (IsAt rule.Bitwidth (Contains (bad_bitwidth entries.now)))) }
{
    let given = first_entry(Asked::Bits, entries);
    let bits = in_range(Rule::Bitwidth, given, DEFAULT_BITS, BITWIDTH)?;
    Ok(bits)
}

/// The states that are listed or usual, or S65.
fn steps_of(entries: &ScopeEntryList) -> Result<u32, Fault>
    ensures range { IfOk result (λ n. (1 ≤ n) × (n ≤ 32)) }
    ensures is { IfOk result (λ n. n ≡ steps_in entries.now) }
    ensures ok { IfOk result (λ _. IsKept (Contains (bad_steps entries.now))) }
    ensures refused { IfErr result
        (IsFaultOf (IsAt rule.Steps (Contains (bad_steps entries.now)))) }
{
    let given = first_entry(Asked::Steps, entries);
    let steps = in_range(Rule::Steps, given, DEFAULT_STEPS, STEPS)?;
    Ok(steps)
}

/// How many integers a bitwidth has.
fn integers_of(bits: u32) -> u64
    requires { (1 ≤ bits) × (bits ≤ 12) }
    ensures value { result ≡ 2 ^ bits }
    ensures few { result ≤ 4096 }
{
    1 << bits
}

/// Asks that the atoms and the integers are few enough (S66).
fn check_atoms(numbers: &SigScopeList, bits: u32, keyword: Position) -> Result<(), Fault>
    requires { (1 ≤ bits) × (bits ≤ 12) }
    ensures few { IfOk result (λ _. atom_count numbers.now + 2 ^ bits ≤ 16384) }
    ensures ok { IfOk result
        (λ _. IsKept (Contains (too_many_atoms (atom_count numbers.now + 2 ^ bits) keyword))) }
    ensures refused { IfErr result (IsFaultOf (IsAt rule.Atoms
        (Contains (too_many_atoms (atom_count numbers.now + 2 ^ bits) keyword)))) }
{
    let integers = integers_of(bits);
    let few = fits(numbers, ATOMS as u64 - integers);
    if !few {
        return Err(refused(Rule::Atoms, keyword));
    }
    Ok(())
}

/// Asks of the trees that count for the command that they keep the bitwidth (S46) and the limits of
/// past operators (S48) and depth (S49).
fn check_trees(alloc: Global, model: &Model, command: &Command, bits: u32) -> Result<(), Fault>
    requires { (1 ≤ bits) × (bits ≤ 12) }
    ensures ok { IfOk result (λ _. AreKept
        (BreaksTrees model.now.bodies (counted model.now command.now) bits) tree_rules) }
    ensures refused { IfErr result (IsFaultOf (IsFirstBroken
        (BreaksTrees model.now.bodies (counted model.now command.now) bits) tree_rules)) }
{
    let roots = counted(alloc, model, command)?;
    let roots = roots.as_slice();
    check_numbers(alloc, model, roots, bits)?;
    check_past(alloc, model, roots)?;
    check_depth(alloc, model, roots)?;
    Ok(())
}

/// Whether some sig is `var`.
fn has_var_sig(sigs: &SigList) -> bool
    ensures { result ≡ list_any (λ (d : Sig). d.is_var) sigs.now }
{
    for place in 0..sigs.len() {
        let sig = sigs.get(place);
        if sig.is_var {
            return true;
        }
    }
    false
}

/// Whether some field is `var`.
fn has_var_field(fields: &FieldList) -> bool
    ensures { result ≡ list_any (λ (f : Field). f.is_var) fields.now }
{
    for place in 0..fields.len() {
        let field = fields.get(place);
        if field.is_var {
            return true;
        }
    }
    false
}

/// How many states a lasso has at most: these where some sig or field is `var`, else one.
fn states_of(model: &Model, steps: u32) -> u32
    requires { (1 ≤ steps) × (steps ≤ 32) }
    ensures few { (1 ≤ result) × (result ≤ 32) }
    ensures is { result ≡ (if list_any (λ (d : Sig). d.is_var) model.now.sigs
        || list_any (λ (f : Field). f.is_var) model.now.fields then steps else 1) }
{
    let has_sig = has_var_sig(&model.sigs);
    let has_field = has_var_field(&model.fields);
    if has_sig || has_field { steps } else { 1 }
}
