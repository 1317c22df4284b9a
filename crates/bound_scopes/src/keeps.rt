//! Whether scopes say of each sig what its declaration asks, and what the command lists.

ghost use Rattle.std.specs.Prelude.{◌≡◌, ◌≤◌, ℕ, true, IsTrue, IsSome, IfSome, All, Some, length, slice_get};
ghost use Rattle.core_tree.specs.declared.model.Sig.{Sig};
ghost use Rattle.core_meaning.specs.declared.scopes.SigScope.{SigScope};
ghost use Rattle.bound_scopes.specs.Numbers.{KeepsKind, KeepsWord, KeepsExactly, IsSigScope, AreSigScopes, IsListed, HasEntry};

use core_meaning::{SigScope, SigScopeList};
use core_tree::{
    Multiplicity, Origin, ScopeEntry, ScopeEntryList, ScopeSubject, Sig, SigKind, SigList,
};

/// Whether a sig is numbered, and top-level, as its kind asks.
fn keeps_kind(kind: &SigKind, scope: &SigScope) -> bool
    ensures { IsTrue result → KeepsKind kind.now scope.now }
{
    match kind {
        SigKind::Top => scope.top && scope.number.is_some(),
        SigKind::Extends(_) => !scope.top && scope.number.is_some(),
        SigKind::Subset(_) => !scope.top,
    }
}

/// Whether there is just one atom.
fn is_just_one(scope: &SigScope) -> bool
    ensures number { IsTrue result → scope.now.number ≡ Some 1 }
    ensures exact { IsTrue result → scope.now.exact ≡ true }
{
    match scope.number {
        None => false,
        Some(number) => number == 1 && scope.exact,
    }
}

/// Whether there is at most one atom.
fn is_at_most_one(number: Option<u64>) -> bool
    ensures { IsTrue result → IfSome number (λ n. n ≤ 1) }
{
    match number {
        None => true,
        Some(number) => number <= 1,
    }
}

/// Whether the number is what the word before a static sig asks.
fn keeps_word(is_var: bool, word: Multiplicity, scope: &SigScope) -> bool
    ensures { IsTrue result → KeepsWord is_var word scope.now }
{
    if is_var {
        return true;
    }
    match word {
        Multiplicity::One => is_just_one(scope),
        Multiplicity::Lone => is_at_most_one(scope.number),
        Multiplicity::Set => true,
        Multiplicity::Some => true,
    }
}

/// Whether the number is exact where an `exactly` parameter asks it.
fn keeps_exactly(exactly: &Option<Origin>, scope: &SigScope) -> bool
    ensures { IsTrue result → KeepsExactly exactly.now scope.now }
{
    match exactly {
        None => true,
        Some(_) => scope.exact,
    }
}

/// Whether the scope of a sig is as its declaration asks.
fn is_sig_scope(sig: &Sig, scope: &SigScope) -> bool
    ensures { IsTrue result → IsSigScope sig.now scope.now }
{
    if !keeps_kind(&sig.kind, scope) {
        return false;
    }
    if !keeps_word(sig.is_var, sig.multiplicity, scope) {
        return false;
    }
    keeps_exactly(&sig.exactly, scope)
}

/// Whether the scope of each sig is as its declaration asks.
pub(crate) fn are_sig_scopes(sigs: &SigList, numbers: &SigScopeList) -> bool
    requires { length sigs.now ≡ length numbers.now }
    ensures { IsTrue result → AreSigScopes sigs.now numbers.now }
{
    for place in 0..sigs.len() {
        let sig = sigs.get(place);
        let scope = numbers.get(place);
        if !is_sig_scope(sig, scope) {
            return false;
        }
    }
    true
}

/// Whether a scope has the number of an entry.
fn has_entry(entry: &ScopeEntry, scope: &SigScope) -> bool
    ensures { IsTrue result → HasEntry entry.now scope.now }
{
    match scope.number {
        None => false,
        Some(number) => number == entry.number as u64 && (scope.exact || !entry.exactly),
    }
}

/// Whether a listed sig has its number.
fn is_listed(numbers: &[SigScope], entry: &ScopeEntry) -> bool
    ensures { IsTrue result → IsListed numbers.now entry.now }
{
    match entry.subject {
        ScopeSubject::Sig(sig) => match numbers.get(sig as usize) {
            None => false,
            Some(scope) => has_entry(entry, scope),
        },
        ScopeSubject::Int => true,
        ScopeSubject::Steps => true,
        ScopeSubject::Overall => true,
        ScopeSubject::Unknown => false,
    }
}

/// Whether all listed sigs have their numbers.
pub(crate) fn are_listed(numbers: &[SigScope], entries: &ScopeEntryList) -> bool
    ensures { IsTrue result → All (IsListed numbers.now) entries.now }
{
    for place in 0..entries.len() {
        let listed = entries.get(place);
        if !is_listed(numbers, listed) {
            return false;
        }
    }
    true
}
