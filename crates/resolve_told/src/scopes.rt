//! The entries of a command's scope are compared with the numbers behind `for`.

ghost use Rattle.std.specs.Prelude.{◌≡◌, ◌<◌, ◌++◌, ℕ, Some, slice_get, [], ◌∷◌, nat_eq, length, map, filter_map, IfOk, OnOk, IsTrue, IfSome, IfNone};
ghost use Rattle.core_tree.specs.declared.model.ScopeSubject.TheVariants as counts;
ghost use Rattle.resolve_types.specs.declared.member.Member.TheVariants as member;
ghost use Rattle.resolve_hierarchy.specs.Rules.{member_of};
ghost use Rattle.resolve_names.specs.Gathered.{number_in};
ghost use Rattle.resolve_told.specs.Commands.{counts_of, target_place, for, IsSteps, IsFor, IsTarget, IsEntry, IsOverall, IsCount, IsScope};
ghost use Rattle.resolve_told.specs.Lists.{OneByOne};
ghost use Rattle.resolve_told.specs.CommandViews.{seen_count, subject_of, IsOnly};

use crate::labels::is_same;
use crate::words::{have_same, same_number};
use base_lists::Items;
use base_types::Position;
use core_tree::{ScopeEntry, ScopeSubject};
use resolve_names::{Decl, Names};
use resolve_types::Member;
use std::alloc::{AllocError, Global};
use syntax_tree::{Numeral, QualName, Scope, ScopeEntry as Number, ScopeTarget, SigName, SigRef};

/// A number of a scope: that of all top-level sigs, or one for what it names.
#[derive(Clone, Copy, Drop)]
enum Count<'a> {
    Overall(Numeral),
    For(&'a Number),
}

/// Adds numbers with their names.
#[tactic(auto, using(crate::proofs::Walk::map_next, crate::proofs::Walk::map_end))]
fn add_numbers<'a>(numbers: &'a [Number], all: &mut Vec<Count<'a>>) -> Result<(), AllocError>
    ensures { OnOk result (map seen_count all.new.items ≡ map seen_count all.old.items
        ++ map for numbers.now) }
{
    for number in numbers {
        all.push(Count::For(number))?;
    }
    Ok(())
}

/// The numbers of a scope, in their order.
fn counts_of<'a>(alloc: Global, scope: &'a Option<Scope>) -> Result<Vec<Count<'a>>, AllocError>
    ensures { IfOk result (λ all. map seen_count all.items ≡ counts_of scope.now) }
{
    let mut all = Vec::new(alloc);
    match scope {
        None => Ok(all),
        Some(Scope::Overall(number)) => {
            all.push(Count::Overall(*number))?;
            Ok(all)
        }
        Some(Scope::But(number, numbers)) => {
            all.push(Count::Overall(*number))?;
            add_numbers(numbers.as_slice(), &mut all)?;
            Ok(all)
        }
        Some(Scope::Entries(numbers)) => {
            add_numbers(numbers.as_slice(), &mut all)?;
            Ok(all)
        }
    }
}

/// Whether the name is `steps`.
fn is_steps(name: &QualName) -> bool
    ensures yes { IsTrue result → IsSteps name.now }
    ensures no { IsSteps name.now → IsTrue result }
{
    if name.is_own {
        return false;
    }
    let parts = name.parts.as_slice();
    if parts.len() != 1 {
        return false;
    }
    let is_same = have_same(parts[0].text(), "steps");
    is_same
}

/// The number of a sig over all instances.
fn sig_number(names: &Names, sig: SigRef) -> Result<u32, AllocError>
    ensures { IfOk result (λ n. n ≡ number_in names.now.scopes sig) }
{
    let place = sig.instance as usize;
    if place >= names.scopes.len() {
        // Each sig is one of an instance.
        return Err(AllocError);
    }
    let first = names.scopes.get(place).first_sig;
    if sig.sig > u32::MAX - first {
        // Each sig has a number.
        return Err(AllocError);
    }
    Ok(first + sig.sig)
}

/// What a declaration is in a scope: a sig, or `Int`.
fn member_of(names: &Names, decl: Decl) -> Result<Option<Member>, AllocError>
    ensures { IfOk result (λ m. m ≡ member_of names.now.scopes decl) }
{
    match decl {
        Decl::Sig(sig) => {
            let number = sig_number(names, sig)?;
            Ok(Some(Member::Sig(number)))
        }
        Decl::Parameter(Some(sig)) => {
            let number = sig_number(names, sig)?;
            Ok(Some(Member::Sig(number)))
        }
        Decl::Parameter(None) => Ok(Some(Member::Int)),
        Decl::Field(_) => Ok(None),
        Decl::Body(_) => Ok(None),
    }
}

/// The declaration at a place.
pub fn decl_at(decls: &[Decl], place: usize) -> Decl
    requires { place < length decls.now }
    ensures { slice_get decls.now place ≡ Some result }
{
    decls[place]
}

/// What declarations are in a scope.
#[tactic(auto, using(crate::proofs::Walk::filter_end))]
fn members_of(alloc: Global, names: &Names, decls: &[Decl]) -> Result<Items<Member>, AllocError>
    ensures { IfOk result (λ ms. ms ≡ filter_map (member_of names.now.scopes) decls.now) }
{
    let mut all = Items::new(alloc);
    for place in 0..decls.len() {
        let decl = decl_at(decls, place);
        let member = member_of(names, decl)?;
        all.push_some(member)?;
    }
    Ok(all)
}

/// Whether there is just one of them.
fn is_single(members: &[Member]) -> bool
    ensures { result ≡ nat_eq (length members.now) 1 }
{
    members.len() == 1
}

/// The sig that these are, if they are just one.
fn only_of(members: &[Member]) -> Option<u32>
    ensures some { IfSome result (λ s. members.now ≡ member.Sig s ∷ []) }
    ensures none { IfNone result ((s : ℕ) → members.now ≡ member.Sig s ∷ [] → ⊥) }
{
    if !is_single(members) {
        return None;
    }
    match members[0] {
        Member::Int => None,
        Member::Sig(sig) => Some(sig),
    }
}

/// Whether a name that stands for this sig, or for nothing that is known, is for this subject.
fn is_only(only: Option<u32>, subject: ScopeSubject) -> bool
    ensures { IsTrue result → subject ≡ subject_of only }
{
    match only {
        None => matches!(subject, ScopeSubject::Unknown),
        Some(sig) => match subject {
            ScopeSubject::Sig(number) => number == sig,
            _ => false,
        },
    }
}

/// Whether the subject is the number of steps, or the bitwidth.
fn is_for_steps(subject: ScopeSubject) -> bool
    ensures { IsTrue result → subject ≡ counts.Steps }
{
    matches!(subject, ScopeSubject::Steps)
}

fn is_for_bits(subject: ScopeSubject) -> bool
    ensures { IsTrue result → subject ≡ counts.Int }
{
    matches!(subject, ScopeSubject::Int)
}

/// Whether a name of these members, which isn't `steps`, is for this subject.
fn is_for_members(members: &[Member], subject: ScopeSubject) -> bool
    ensures { IsTrue result → IsOnly members.now subject }
{
    let only = only_of(members);
    is_only(only, subject)
}

/// Whether a name in a scope of the root is for this subject.
fn is_for(
    alloc: Global,
    names: &Names,
    name: &QualName,
    subject: ScopeSubject,
) -> Result<bool, AllocError>
    ensures { IfOk result (λ b. IsTrue b → IsFor names.now.scopes name.now subject) }
{
    if is_steps(name) {
        let is_right = is_for_steps(subject);
        return Ok(is_right);
    }
    if names.scopes.len() == 0 {
        // There is a root.
        return Err(AllocError);
    }
    let decls = names.candidates(alloc, 0, name)?;
    let members = members_of(alloc, names, decls.as_slice())?;
    let is_right = is_for_members(members.as_slice(), subject);
    Ok(is_right)
}

/// Whether a number is for this subject.
fn is_target(
    alloc: Global,
    names: &Names,
    target: &ScopeTarget,
    subject: ScopeSubject,
) -> Result<bool, AllocError>
    ensures { IfOk result (λ b. IsTrue b → IsTarget names.now.scopes target.now subject) }
{
    match target {
        ScopeTarget::Bits(_) => Ok(is_for_bits(subject)),
        ScopeTarget::Sig(SigName::Int(_)) => Ok(is_for_bits(subject)),
        ScopeTarget::Sig(SigName::Name(name)) => {
            let is_right = is_for(alloc, names, name, subject)?;
            Ok(is_right)
        }
    }
}

/// The place of what a number is for.
fn target_place(target: &ScopeTarget) -> Position
    ensures { result ≡ target_place target.now }
{
    match target {
        ScopeTarget::Bits(place) => *place,
        ScopeTarget::Sig(SigName::Int(place)) => *place,
        ScopeTarget::Sig(SigName::Name(name)) => name.place,
    }
}

/// Whether an entry is that of a number with a name.
fn is_entry(
    alloc: Global,
    names: &Names,
    number: &Number,
    entry: &ScopeEntry,
) -> Result<bool, AllocError>
    ensures { IfOk result (λ b. IsTrue b → IsEntry names.now.scopes number.now entry.now) }
{
    if !is_same(entry.number_place, number.number.place) {
        return Ok(false);
    }
    let place = target_place(&number.target);
    if !is_same(entry.name_place, place) {
        return Ok(false);
    }
    if !same_number(entry.number, number.number.value) {
        return Ok(false);
    }
    if !same_flag(entry.exactly, number.is_exact) {
        return Ok(false);
    }
    let is_right = is_target(alloc, names, &number.target, entry.subject)?;
    Ok(is_right)
}

/// Whether the subject is all top-level sigs.
fn is_for_all(subject: ScopeSubject) -> bool
    ensures { IsTrue result → subject ≡ counts.Overall }
{
    matches!(subject, ScopeSubject::Overall)
}

/// Whether two flags are the same.
fn same_flag(a: bool, b: bool) -> bool
    ensures { IsTrue result → a ≡ b }
{
    a == b
}

/// Whether an entry is that of the number of all top-level sigs.
fn is_overall(number: Numeral, entry: &ScopeEntry) -> bool
    ensures { IsTrue result → IsOverall number entry.now }
{
    if !is_same(entry.number_place, number.place) {
        return false;
    }
    if !is_same(entry.name_place, number.place) {
        return false;
    }
    if !same_number(entry.number, number.value) {
        return false;
    }
    if !same_flag(entry.exactly, false) {
        return false;
    }
    is_for_all(entry.subject)
}

/// Whether an entry is that of a number.
fn is_count(
    alloc: Global,
    names: &Names,
    count: &Count<'_>,
    entry: &ScopeEntry,
) -> Result<bool, AllocError>
    ensures { IfOk result (λ b. IsTrue b
        → IsCount names.now.scopes (seen_count count.now) entry.now) }
{
    match count {
        Count::Overall(number) => Ok(is_overall(*number, entry)),
        Count::For(number) => {
            let is_right = is_entry(alloc, names, number, entry)?;
            Ok(is_right)
        }
    }
}

/// The entry at a place.
fn entry_at(entries: &[ScopeEntry], place: usize) -> &ScopeEntry
    requires { place < length entries.now }
    ensures { slice_get entries.now place ≡ Some result.now }
{
    &entries[place]
}

/// Whether the entries are those of these numbers.
#[tactic(auto, using(crate::proofs::Walk::pair_all))]
fn are_counts(
    alloc: Global,
    names: &Names,
    counts: &[Count<'_>],
    entries: &[ScopeEntry],
) -> Result<bool, AllocError>
    ensures { IfOk result (λ b. IsTrue b
        → OneByOne (λ n c e. IsCount names.now.scopes c e) (map seen_count counts.now)
        entries.now) }
{
    if counts.len() != entries.len() {
        return Ok(false);
    }
    for place in 0..counts.len() {
        let entry = entry_at(entries, place);
        let is_right = is_count(alloc, names, &counts[place], entry)?;
        if !is_right {
            return Ok(false);
        }
    }
    Ok(true)
}

/// Whether these are the entries of a scope.
pub fn is_scope(
    alloc: Global,
    names: &Names,
    scope: &Option<Scope>,
    entries: &[ScopeEntry],
) -> Result<bool, AllocError>
    ensures { IfOk result (λ b. IsTrue b → IsScope names.now.scopes scope.now entries.now) }
{
    let counts = counts_of(alloc, scope)?;
    let is_right = are_counts(alloc, names, counts.as_slice(), entries)?;
    Ok(is_right)
}
