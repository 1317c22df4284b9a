//! The formulas of all declarations of a model, those of the sigs before those of the fields.

ghost use Rattle.std.specs.Prelude.{◌≡◌, ◌↔◌, ◌+◌, ℕ, All, IfOk, OnOk};
ghost use Rattle.core_tree.specs.Models.{IsModel};
ghost use Rattle.core_meaning.specs.World.{World};
ghost use Rattle.core_meaning.specs.Called.{bodies_of};
ghost use Rattle.core_meaning.specs.Declarations.{Declares};
ghost use Rattle.form_target.specs.Asked.{EachOf, IsSigDeclared, IsFieldAsked};
ghost use Rattle.form_target.specs.Added.{IsWorldOf, HoldsIn, IsClosed, Adds};

use crate::children::{child_lists, children_at};
use crate::fields::field_formulas;
use crate::sigs::sig_formulas;
use core_tree::{Field, Formula, Model, Sig};
use std::alloc::{AllocError, Global};

/// Formulas without free names that all hold at a position exactly where the declarations do: those
/// of the sigs, then those of the fields.
pub fn implied(alloc: Global, model: &Model) -> Result<Vec<Formula>, AllocError>
    ensures same { IfOk result (λ all. (w : World) (i : ℕ) → IsWorldOf model.now w →
        All (HoldsIn model.now w i) all.items ↔ Declares model.now w (bodies_of w model.now.bodies)
        i) }
    ensures closed { IfOk result (λ all. IsModel model.now → All (IsClosed model.now) all.items) }
{
    let mut all = Vec::new(alloc);
    of_sigs(alloc, model, model.sigs.as_slice(), &mut all)?;
    of_fields(alloc, model, model.fields.as_slice(), &mut all)?;
    Ok(all)
}

/// Adds the formulas of all sigs.
fn of_sigs(
    alloc: Global,
    model: &Model,
    sigs: &[Sig],
    all: &mut Vec<Formula>,
) -> Result<(), AllocError>
    requires { sigs.now ≡ model.now.sigs }
    ensures { OnOk result (Adds model.now all.old.items all.new.items
        (λ w i. EachOf model.now.sigs (IsSigDeclared model.now w i))) }
{
    let lists = child_lists(alloc, sigs)?;
    let mut number = 0;
    for sig in sigs {
        let children = children_at(lists.as_slice(), number)?;
        sig_formulas(alloc, model, number, sig, children, all)?;
        number = next_number(number)?;
    }
    Ok(())
}

/// Adds the formulas of all fields.
fn of_fields(
    alloc: Global,
    model: &Model,
    fields: &[Field],
    all: &mut Vec<Formula>,
) -> Result<(), AllocError>
    requires { fields.now ≡ model.now.fields }
    ensures { OnOk result (Adds model.now all.old.items all.new.items
        (λ w i. EachOf model.now.fields (IsFieldAsked model.now w i))) }
{
    let mut number = 0;
    for field in fields {
        field_formulas(alloc, model, fields, number, field, all)?;
        number = next_number(number)?;
    }
    Ok(())
}

/// The number after this one. There is no memory for a list that is longer than there are numbers.
pub fn next_number(number: u32) -> Result<u32, AllocError>
    ensures { IfOk result (λ n. n ≡ number + 1) }
{
    if number == u32::MAX {
        return Err(AllocError);
    }
    Ok(number + 1)
}
