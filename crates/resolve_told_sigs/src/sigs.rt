//! Whether the sigs of a paragraph say what its text says.

ghost use Rattle.std.specs.Prelude.{◌≡◌, IfOk, IfSome, IsTrue, Some};
ghost use Rattle.core_tree.specs.declared.model.SigKind.TheVariants.{Top, Extends};
ghost use Rattle.resolve_told_sigs.specs.Walks.{Walks};
ghost use Rattle.resolve_told_sigs.specs.Told.{AreEnum, AreStrings, IsAppended, IsLiteral, IsMemberAt, IsPlain, IsSig, IsSigAt, IsStringSig, IsWordedSig, given};

use crate::fields::{Owner, lists_at};
use crate::kinds::is_kind;
use crate::own::own_fields;
use crate::says::says_of_this;
use crate::told::Sources;
use crate::typed::is_sig_typed;
use crate::words::{
    has_qualifier, is_quoted, is_sig_label, next, same_bool, same_multiplicity, same_text, sig_word,
};
use core_tree::{Formula, Multiplicity, Sig, SigKind};
use std::alloc::{AllocError, Global};
use syntax_tree::{Enumeration, Expr as Tree, Named, Qualifier, Sig as Written};

/// The next sig, and the next field.
#[derive(Clone, Copy, Drop)]
pub struct SigSpot {
    pub sig: u32,
    pub field: u32,
}

/// Whether the words of a sig are those of its text.
fn is_worded(written: &Written, made: &Sig) -> bool
    ensures { IsTrue result → IsWordedSig written.now made.now }
{
    let qualifiers = written.qualifiers.as_slice();
    same_bool(made.is_var, has_qualifier(Qualifier::Var, qualifiers))
        && same_bool(
            made.is_abstract,
            has_qualifier(Qualifier::Abstract, qualifiers),
        )
        && same_multiplicity(made.multiplicity, sig_word(qualifiers))
}

/// Whether the appended fact of a sig says what its block says, behind so many lists of fields.
fn says_block(
    alloc: Global,
    sources: &Sources<'_>,
    instance: u32,
    sig: u32,
    lists: u32,
    block: &Tree,
    formula: &Formula,
) -> Result<bool, AllocError>
    ensures { IfOk result (λ b. IsTrue b → IsAppended (given sources.now) instance sig lists
        (Some block.now) (Some formula.now)) }
{
    let sigs = sources.model.sigs.as_slice();
    match own_fields(alloc, sigs, sources.fields, instance, sig, lists)? {
        None => Ok(false),
        Some(own) => {
            let (names, model, readings) = (sources.names, sources.model, sources.readings);
            let own = own.as_slice();
            let says = says_of_this(
                alloc, names, model, readings, instance, sig, own, block, formula,
            )?;
            Ok(says)
        }
    }
}

/// Whether a sig has an appended fact just where its text has a block, and it says what that says.
fn is_appended(
    alloc: Global,
    sources: &Sources<'_>,
    instance: u32,
    sig: u32,
    lists: u32,
    block: &Option<Tree>,
    appended: &Option<Formula>,
) -> Result<bool, AllocError>
    ensures { IfOk result (λ b. IsTrue b → IsAppended (given sources.now) instance sig lists
        block.now appended.now) }
{
    match block {
        None => match appended {
            None => Ok(true),
            Some(_) => Ok(false),
        },
        Some(block) => match appended {
            None => Ok(false),
            Some(formula) => {
                let says = says_block(alloc, sources, instance, sig, lists, block, formula)?;
                Ok(says)
            }
        },
    }
}

/// How many lists of fields a sig has.
fn count(lists: usize) -> Result<u32, AllocError>
    ensures { IfOk result (λ n. n ≡ lists) }
{
    match u32::try_from(lists) {
        Ok(count) => Ok(count),
        Err(_) => Err(AllocError),
    }
}

/// Whether a sig says what its text says.
fn is_sig(
    alloc: Global,
    sources: &Sources<'_>,
    label: &str,
    instance: u32,
    number: u32,
    written: &Written,
    name: &Named,
    made: &Sig,
) -> Result<bool, AllocError>
    ensures { IfOk result (λ b. IsTrue b → IsSig (given sources.now) label.now instance number
        written.now name.now made.now) }
{
    if !is_sig_label(alloc, made.label.text(), label, name.name.text())? {
        return Ok(false);
    }
    if !is_worded(written, made) {
        return Ok(false);
    }
    if !is_kind(alloc, sources.names, instance, &written.parents, &made.kind)? {
        return Ok(false);
    }
    let lists = count(written.fields.len())?;
    let (block, appended) = (&written.block, &made.appended);
    let told = is_appended(alloc, sources, instance, number, lists, block, appended)?;
    Ok(told)
}

/// Whether the sig of this number and its fields say what their text says; the answer is the next sig.
fn sig_at(
    alloc: Global,
    sources: &Sources<'_>,
    label: &str,
    instance: u32,
    written: &Written,
    at: SigSpot,
    name: &Named,
) -> Result<Option<SigSpot>, AllocError>
    ensures { IfOk result (λ o. IfSome o (IsSigAt (given sources.now) label.now instance
        written.now at name.now)) }
{
    let place = at.sig as usize;
    if place >= sources.model.sigs.len() {
        return Ok(None);
    }
    let made = sources.model.sigs.get(place);
    if !is_sig(alloc, sources, label, instance, at.sig, written, name, made)? {
        return Ok(None);
    }
    if !is_sig_typed(sources.readings, sources.integers, instance, at.sig) {
        return Ok(None);
    }
    let owner = Owner {
        instance,
        sig: at.sig,
        label: made.label.text(),
    };
    match lists_at(alloc, sources, &owner, at.field, written.fields.as_slice())? {
        None => Ok(None),
        Some(field) => {
            let after = next(at.sig)?;
            Ok(Some(SigSpot { sig: after, field }))
        }
    }
}

/// Whether the sigs of a paragraph and their fields say what their text says; the answer is the next sig.
pub fn sigs_at(
    alloc: Global,
    sources: &Sources<'_>,
    label: &str,
    instance: u32,
    written: &Written,
    at: SigSpot,
) -> Result<Option<SigSpot>, AllocError>
    ensures { IfOk result (λ o. IfSome o (Walks (IsSigAt (given sources.now) label.now instance
        written.now) at written.now.names)) }
{
    let mut here = at;
    for name in written.names.as_slice() {
        match sig_at(alloc, sources, label, instance, written, here, name)? {
            None => return Ok(None),
            Some(there) => here = there,
        }
    }
    Ok(Some(here))
}

/// Whether a sig that isn't `var` and has no appended fact is abstract as it is to be, and has this word.
fn is_plain(is_abstract: bool, word: Multiplicity, made: &Sig) -> bool
    ensures { IsTrue result → IsPlain is_abstract word made.now }
{
    !made.is_var
        && same_bool(made.is_abstract, is_abstract)
        && same_multiplicity(made.multiplicity, word)
        && matches!(made.appended, None)
}

/// Whether a sig is at the top.
fn is_top(kind: &SigKind) -> bool
    ensures { IsTrue result → kind.now ≡ Top }
{
    matches!(kind, SigKind::Top)
}

/// Whether a sig extends this one.
fn does_extend(kind: &SigKind, parent: u32) -> bool
    ensures { IsTrue result → kind.now ≡ Extends parent }
{
    match kind {
        SigKind::Extends(sig) => *sig == parent,
        _ => false,
    }
}

/// Whether the sig of this number is the member of an enum; the answer is the number of the next one.
fn member_at(
    alloc: Global,
    sources: &Sources<'_>,
    label: &str,
    instance: u32,
    first: u32,
    at: u32,
    name: &Named,
) -> Result<Option<u32>, AllocError>
    ensures { IfOk result (λ o. IfSome o (IsMemberAt (given sources.now) label.now instance first
        at name.now)) }
{
    let place = at as usize;
    if place >= sources.model.sigs.len() {
        return Ok(None);
    }
    let made = sources.model.sigs.get(place);
    if !is_sig_label(alloc, made.label.text(), label, name.name.text())? {
        return Ok(None);
    }
    if !is_plain(false, Multiplicity::One, made) || !does_extend(&made.kind, first) {
        return Ok(None);
    }
    if !is_sig_typed(sources.readings, sources.integers, instance, at) {
        return Ok(None);
    }
    let after = next(at)?;
    Ok(Some(after))
}

/// Whether the sigs from this number on are the members of an enum; the answer is the number of the next one.
fn members_at(
    alloc: Global,
    sources: &Sources<'_>,
    label: &str,
    instance: u32,
    first: u32,
    at: u32,
    members: &[Named],
) -> Result<Option<u32>, AllocError>
    ensures { IfOk result (λ o. IfSome o (Walks (IsMemberAt (given sources.now) label.now instance
        first) at members.now)) }
{
    let mut here = at;
    for name in members {
        match member_at(alloc, sources, label, instance, first, here, name)? {
            None => return Ok(None),
            Some(there) => here = there,
        }
    }
    Ok(Some(here))
}

/// Whether the sigs from this number on are those of an enum; the answer is the number of the next one.
pub fn enum_at(
    alloc: Global,
    sources: &Sources<'_>,
    label: &str,
    instance: u32,
    written: &Enumeration,
    at: u32,
) -> Result<Option<u32>, AllocError>
    ensures { IfOk result (λ o. IfSome o (AreEnum (given sources.now) label.now instance
        written.now at)) }
{
    let place = at as usize;
    if place >= sources.model.sigs.len() {
        return Ok(None);
    }
    let made = sources.model.sigs.get(place);
    if !is_sig_label(alloc, made.label.text(), label, written.name.name.text())? {
        return Ok(None);
    }
    if !is_plain(true, Multiplicity::Set, made) || !is_top(&made.kind) {
        return Ok(None);
    }
    if !is_sig_typed(sources.readings, sources.integers, instance, at) {
        return Ok(None);
    }
    let second = next(at)?;
    let members = written.members.as_slice();
    let after = members_at(alloc, sources, label, instance, at, second, members)?;
    Ok(after)
}

/// Whether a sig is `String`.
fn is_string(made: &Sig) -> bool
    ensures { IsTrue result → IsStringSig made.now }
{
    same_text(made.label.text(), "String")
        && is_plain(true, Multiplicity::Set, made)
        && is_top(&made.kind)
}

/// Whether a sig is that of a literal, where `String` has this number.
fn is_literal(string: u32, made: &Sig) -> bool
    ensures { IsTrue result → IsLiteral string made.now }
{
    is_quoted(made.label.text())
        && is_plain(false, Multiplicity::One, made)
        && does_extend(&made.kind, string)
}

/// Whether `String` has this number, and the sigs behind it are those of literals.
pub fn are_strings(sigs: &[Sig], string: u32) -> bool
    ensures { IsTrue result → AreStrings sigs.now string }
{
    let first = string as usize;
    if first >= sigs.len() {
        return false;
    }
    if !is_string(&sigs[first]) {
        return false;
    }
    for place in first + 1..sigs.len() {
        if !is_literal(string, &sigs[place]) {
            return false;
        }
    }
    true
}
