//! The fields that stand for relation parameters.

ghost use Rattle.std.specs.Prelude.{◌≡◌, ◌∷◌, ◌++◌, Contains, decimal, IfOk, OnOk};
ghost use Rattle.form_skolem.specs.Opened.{IsLabel, labels};
ghost use Rattle.form_skolem.specs.Steps as steps;
ghost use Rattle.form_skolem.specs.Steps.{IsAdded, with_type};

use crate::bounds::{BoundType, rows_copy};
use base_types::Name;
use core_tree::{Field, FieldList, Parameter, Sig};
use itoa::Buffer;
use std::alloc::{AllocError, Global};

/// Whether a sig has this label.
fn sig_has(sigs: &[Sig], label: &str) -> bool
    ensures { result ≡ steps.sig_has sigs.now label.now }
{
    for sig in sigs {
        if sig.label.text() == label {
            return true;
        }
    }
    false
}

/// Whether a field has this label.
fn field_has(fields: &[Field], label: &str) -> bool
    ensures { result ≡ steps.field_has fields.now label.now }
{
    for field in fields {
        if field.label.text() == label {
            return true;
        }
    }
    false
}

/// Whether a sig or a field has this label.
fn is_taken(sigs: &[Sig], fields: &[Field], label: &str) -> bool
    ensures { result ≡ steps.is_taken sigs.now fields.now label.now }
{
    if sig_has(sigs, label) {
        return true;
    }
    field_has(fields, label)
}

/// `$` and a name.
fn first_label(alloc: Global, name: &str) -> Result<Name, AllocError>
    ensures { IfOk result (λ l. l ≡ 36 ∷ name.now) }
{
    let mut text = String::from_str(alloc, "$")?;
    text.push_str(name)?;
    let label = Name::copy(alloc, text.as_str())?;
    Ok(label)
}

/// A label with `$` and a number added.
fn counted_label(alloc: Global, first: &str, number: u64) -> Result<Name, AllocError>
    ensures { IfOk result (λ l. l ≡ first.now ++ 36 ∷ decimal number) }
{
    let mut text = String::from_str(alloc, first)?;
    text.push_str("$")?;
    let mut buffer = Buffer::new();
    text.push_str(buffer.format(number))?;
    let label = Name::copy(alloc, text.as_str())?;
    Ok(label)
}

/// A label that is taken, with `$2`, `$3` and so on added, whichever is free first. One of these is
/// free, since there are more of them than relations.
fn next_label(
    alloc: Global,
    sigs: &[Sig],
    fields: &[Field],
    first: &str,
) -> Result<Name, AllocError>
    requires { Contains (labels sigs.now fields.now) first.now }
    ensures { IfOk result (λ l. IsLabel (labels sigs.now fields.now) first.now l) }
{
    for number in 2..u64::MAX {
        let label = counted_label(alloc, first, number)?;
        if !is_taken(sigs, fields, label.text()) {
            return Ok(label);
        }
    }
    Err(AllocError)
}

/// The label of a parameter's field: `$` and its name; where an earlier relation has that label,
/// `$2`, `$3` and so on is added.
fn label_of(alloc: Global, sigs: &[Sig], fields: &[Field], name: &str) -> Result<Name, AllocError>
    ensures { IfOk result (λ l. IsLabel (labels sigs.now fields.now) (36 ∷ name.now) l) }
{
    let first = first_label(alloc, name)?;
    if !is_taken(sigs, fields, first.text()) {
        return Ok(first);
    }
    let label = next_label(alloc, sigs, fields, first.text())?;
    Ok(label)
}

/// Adds the static field without owner that stands for a parameter with this type of its bound.
pub(crate) fn add_field(
    alloc: Global,
    sigs: &[Sig],
    fields: &mut FieldList,
    parameter: &Parameter,
    bound: &BoundType,
) -> Result<(), AllocError>
    ensures { OnOk result (IsAdded (labels sigs.now fields.old) (with_type parameter.now bound.now)
        fields.old fields.new) }
{
    let label = label_of(alloc, sigs, fields.as_slice(), parameter.label.text())?;
    let rows = rows_copy(alloc, bound.rows.as_slice())?;
    fields.push(Field {
        label,
        columns: bound.columns,
        rows,
        is_var: false,
        owner: None,
        declared: None,
    })?;
    Ok(())
}
