//! What the declarations of sigs ask of a position: parents, `abstract`, multiplicities, facts.

ghost use Rattle.std.specs.Prelude.{◌≡◌, All, OnOk, Some, length, slice_get};
ghost use Rattle.core_tree.specs.Models.{IsParent};
ghost use Rattle.core_meaning.specs.Operators.{IsListOf, HasMultiplicity};
ghost use Rattle.core_meaning.specs.Declarations.{IsPlaced};
ghost use Rattle.core_meaning.specs.Called.{bodies_of};
ghost use Rattle.form_target.specs.Children.{IsChildColumn};
ghost use Rattle.form_target.specs.Asked.{Pairwise, IsSigTuple, AreApart, IsCovered, HasFact, IsSigDeclared};
ghost use Rattle.form_target.specs.Added.{Adds};

use crate::build::{disjoint, for_each, inside, test, union_of};
use core_tree::{Column, Expr, Formula, Model, Multiplicity, Quantity, Sig, SigKind};
use std::alloc::{AllocError, Global};

/// Adds what the declaration of a sig with these children asks.
pub fn sig_formulas(
    alloc: Global,
    model: &Model,
    number: u32,
    sig: &Sig,
    children: &[Column],
    all: &mut Vec<Formula>,
) -> Result<(), AllocError>
    requires there { slice_get model.now.sigs number ≡ Some sig.now }
    requires children { IsListOf (IsChildColumn model.now.sigs number) children.now }
    ensures { OnOk result (Adds model.now all.old.items all.new.items
        (λ w i. IsSigDeclared model.now w i number sig.now)) }
{
    placed(alloc, model, number, sig, all)?;
    covered(alloc, model, number, sig, children, all)?;
    apart(alloc, model, children, all)?;
    counted(alloc, model, number, sig, all)?;
    appended(alloc, model, number, sig, all)?;
    Ok(())
}

/// Adds where a sig lies: a child inside its parent, an `in` sig inside the union of its parents.
fn placed(
    alloc: Global,
    model: &Model,
    number: u32,
    sig: &Sig,
    all: &mut Vec<Formula>,
) -> Result<(), AllocError>
    requires { slice_get model.now.sigs number ≡ Some sig.now }
    ensures { OnOk result (Adds model.now all.old.items all.new.items
        (λ w i. IsPlaced model.now w (bodies_of w model.now.bodies) i number sig.now.kind)) }
{
    match &sig.kind {
        SigKind::Top => Ok(()),
        SigKind::Extends(parent) => {
            all.push(inside(alloc, Expr::Sig(number), Expr::Sig(*parent))?)?;
            Ok(())
        }
        SigKind::Subset(parents) => {
            let union = union_of(alloc, parents.as_slice())?;
            all.push(inside(alloc, Expr::Sig(number), union)?)?;
            Ok(())
        }
    }
}

/// Adds that an abstract sig with children is their union.
fn covered(
    alloc: Global,
    model: &Model,
    number: u32,
    sig: &Sig,
    children: &[Column],
    all: &mut Vec<Formula>,
) -> Result<(), AllocError>
    requires there { slice_get model.now.sigs number ≡ Some sig.now }
    requires children { IsListOf (IsChildColumn model.now.sigs number) children.now }
    ensures { OnOk result (Adds model.now all.old.items all.new.items
        (λ w i. IsCovered model.now w i number sig.now)) }
{
    if !sig.is_abstract {
        return Ok(());
    }
    let count = children.len();
    if count == 0 {
        return Ok(());
    }
    let union = union_of(alloc, children)?;
    all.push(inside(alloc, Expr::Sig(number), union)?)?;
    Ok(())
}

/// Adds that no two of the sigs share an atom: the first half and the second half don't, nor any
/// two of either half.
fn apart(
    alloc: Global,
    model: &Model,
    sigs: &[Column],
    all: &mut Vec<Formula>,
) -> Result<(), AllocError>
    requires { All (IsParent (length model.now.sigs)) sigs.now }
    ensures { OnOk result (Adds model.now all.old.items all.new.items
        (λ w i. Pairwise (AreApart model.now w i) sigs.now)) }
{
    let half = sigs.len() / 2;
    if half == 0 {
        return Ok(());
    }
    let (left, right) = sigs.split_at(half);
    let first = union_of(alloc, left)?;
    let second = union_of(alloc, right)?;
    all.push(disjoint(alloc, first, second)?)?;
    apart(alloc, model, left, all)?;
    apart(alloc, model, right, all)?;
    Ok(())
}

/// Adds what the word before `sig` asks.
fn counted(
    alloc: Global,
    model: &Model,
    number: u32,
    sig: &Sig,
    all: &mut Vec<Formula>,
) -> Result<(), AllocError>
    requires { slice_get model.now.sigs number ≡ Some sig.now }
    ensures { OnOk result (Adds model.now all.old.items all.new.items
        (λ w i. HasMultiplicity sig.now.multiplicity (IsSigTuple model.now w i number))) }
{
    match sig.multiplicity {
        Multiplicity::Set => Ok(()),
        Multiplicity::One => {
            all.push(test(alloc, Quantity::One, Expr::Sig(number))?)?;
            Ok(())
        }
        Multiplicity::Lone => {
            all.push(test(alloc, Quantity::Lone, Expr::Sig(number))?)?;
            Ok(())
        }
        Multiplicity::Some => {
            all.push(test(alloc, Quantity::Some, Expr::Sig(number))?)?;
            Ok(())
        }
    }
}

/// Adds that the appended fact of a sig holds for each atom of it.
fn appended(
    alloc: Global,
    model: &Model,
    number: u32,
    sig: &Sig,
    all: &mut Vec<Formula>,
) -> Result<(), AllocError>
    requires { slice_get model.now.sigs number ≡ Some sig.now }
    ensures { OnOk result (Adds model.now all.old.items all.new.items
        (λ w i. HasFact model.now w i number sig.now)) }
{
    match &sig.appended {
        None => Ok(()),
        Some(fact) => {
            let copy = fact.copy(alloc)?;
            all.push(for_each(alloc, number, copy)?)?;
            Ok(())
        }
    }
}
