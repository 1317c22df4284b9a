//! Whether a sig of the model stands where its text says.

ghost use Rattle.std.specs.Prelude.{◌≡◌, [], ◌∷◌, IfOk, IsTrue};
ghost use Rattle.std.specs.List.{filter_map};
ghost use Rattle.syntax_tree.specs.declared.module.SigName.TheVariants.{Name as Named};
ghost use Rattle.resolve_names.specs.Gathered.{number_in};
ghost use Rattle.resolve_told_sigs.specs.Kinds.{AreParents, IsKind, NamesParent, parent_of};

use base_lists::Items;
use core_tree::{Column, SigKind};
use resolve_names::{Decl, Names, Namespace};
use std::alloc::{AllocError, Global};
use syntax_tree::{Parents, QualName, SigName, SigRef};

/// The number of a sig over all instances.
fn number_in(scopes: &[Namespace], sig: SigRef) -> Result<u32, AllocError>
    ensures { IfOk result (λ n. n ≡ number_in scopes.now sig) }
{
    let place = sig.instance as usize;
    if place >= scopes.len() {
        return Ok(sig.sig);
    }
    let first = scopes[place].first_sig;
    if sig.sig > u32::MAX - first {
        // Each sig has a number.
        return Err(AllocError);
    }
    Ok(first + sig.sig)
}

/// What a declaration is as a parent: a sig or `Int`.
fn parent_of(scopes: &[Namespace], decl: Decl) -> Result<Option<Column>, AllocError>
    ensures { IfOk result (λ o. o ≡ parent_of scopes.now decl) }
{
    match decl {
        Decl::Sig(sig) => {
            let number = number_in(scopes, sig)?;
            Ok(Some(Column::Sig(number)))
        }
        Decl::Parameter(argument) => match argument {
            None => Ok(Some(Column::Int)),
            Some(sig) => {
                let number = number_in(scopes, sig)?;
                Ok(Some(Column::Sig(number)))
            }
        },
        Decl::Field(_) => Ok(None),
        Decl::Body(_) => Ok(None),
    }
}

/// What declarations are as parents.
fn parents_of(
    alloc: Global,
    scopes: &[Namespace],
    decls: &[Decl],
) -> Result<Items<Column>, AllocError>
    ensures { IfOk result (λ cs. cs ≡ filter_map (parent_of scopes.now) decls.now) }
{
    let mut all = Items::new(alloc);
    for decl in decls {
        let parent = parent_of(scopes, *decl)?;
        all.push_some(parent)?;
    }
    Ok(all)
}

/// Whether two parents are the same.
fn is_same(a: Column, b: Column) -> bool
    ensures { IsTrue result → a ≡ b }
{
    match a {
        Column::Int => match b {
            Column::Int => true,
            Column::Sig(_) => false,
        },
        Column::Sig(s) => match b {
            Column::Int => false,
            Column::Sig(t) => s == t,
        },
    }
}

/// Whether there is just one parent, which is this.
fn is_only(parents: &[Column], column: Column) -> bool
    ensures { IsTrue result → parents.now ≡ column ∷ [] }
{
    if parents.len() != 1 {
        return false;
    }
    is_same(parents[0], column)
}

/// Whether a name in an instance stands for just this parent.
fn is_named(
    alloc: Global,
    names: &Names,
    instance: u32,
    name: &QualName,
    column: Column,
) -> Result<bool, AllocError>
    ensures { IfOk result (λ b. IsTrue b → NamesParent names.now.scopes instance (Named name.now)
        column) }
{
    if instance as usize >= names.scopes.len() {
        return Ok(false);
    }
    let decls = names.candidates(alloc, instance, name)?;
    let parents = parents_of(alloc, names.scopes.as_slice(), decls.as_slice())?;
    Ok(is_only(parents.as_slice(), column))
}

/// Whether the name of a parent in an instance stands for just this one.
fn names_parent(
    alloc: Global,
    names: &Names,
    instance: u32,
    name: &SigName,
    column: Column,
) -> Result<bool, AllocError>
    ensures { IfOk result (λ b. IsTrue b → NamesParent names.now.scopes instance name.now column) }
{
    match name {
        SigName::Int(_) => Ok(is_same(column, Column::Int)),
        SigName::Name(name) => {
            let named = is_named(alloc, names, instance, name, column)?;
            Ok(named)
        }
    }
}

/// Whether the names of parents in an instance stand for just these, in order.
fn are_parents(
    alloc: Global,
    names: &Names,
    instance: u32,
    written: &[SigName],
    columns: &[Column],
) -> Result<bool, AllocError>
    ensures { IfOk result (λ b. IsTrue b → AreParents names.now.scopes instance written.now
        columns.now) }
{
    if written.len() != columns.len() {
        return Ok(false);
    }
    for place in 0..written.len() {
        if !names_parent(alloc, names, instance, &written[place], columns[place])? {
            return Ok(false);
        }
    }
    Ok(true)
}

/// Whether a sig of the model stands where its text says.
pub fn is_kind(
    alloc: Global,
    names: &Names,
    instance: u32,
    parents: &Parents,
    kind: &SigKind,
) -> Result<bool, AllocError>
    ensures { IfOk result (λ b. IsTrue b → IsKind names.now.scopes instance parents.now kind.now) }
{
    match parents {
        Parents::Top => match kind {
            SigKind::Top => Ok(true),
            _ => Ok(false),
        },
        Parents::Extends(name) => match kind {
            SigKind::Extends(sig) => {
                let named = names_parent(alloc, names, instance, name, Column::Sig(*sig))?;
                Ok(named)
            }
            _ => Ok(false),
        },
        Parents::Subset(written) => match kind {
            SigKind::Subset(columns) => {
                let written = written.as_slice();
                let named = are_parents(alloc, names, instance, written, columns.as_slice())?;
                Ok(named)
            }
            _ => Ok(false),
        },
    }
}
