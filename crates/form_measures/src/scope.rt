//! The names in scope, and what measures what each of them stands for.

ghost use Rattle.std.specs.Prelude.{◌≡◌, eqb, if◌then◌else◌, IfOk, OnOk};
ghost use Rattle.core_tree.specs.Past.{Depths, with_depth};
ghost use Rattle.form_measures.specs.Weights.{weight_at, named};

use crate::weight::{Weight, joined, nothing};
use std::alloc::{AllocError, Global};

/// A name, and what measures what it stands for.
#[derive(Drop)]
pub struct Named {
    pub name: u32,
    pub weight: Weight,
}

/// An equal name.
fn copy_of(alloc: Global, other: &Named) -> Result<Named, AllocError>
    ensures name { IfOk result (λ n. n.name ≡ other.now.name) }
    ensures weight { IfOk result (λ n. (d : Depths) →
        weight_at d n.weight ≡ weight_at d other.now.weight) }
{
    let weight = joined(nothing(alloc), 0, &other.weight)?;
    Ok(Named {
        name: other.name,
        weight,
    })
}

/// The same names.
pub(crate) fn copied(alloc: Global, names: &[Named]) -> Result<Vec<Named>, AllocError>
    ensures { IfOk result (λ v. (d : Depths) → named d v.items ≡ named d names.now) }
{
    let mut all = Vec::new(alloc);
    for name in names {
        all.push(copy_of(alloc, name)?)?;
    }
    Ok(all)
}

/// Takes a name into scope, which hides an earlier one of its number.
pub(crate) fn enter(names: &mut Vec<Named>, name: u32, weight: Weight) -> Result<(), AllocError>
    ensures { OnOk result ((d : Depths) → named d names.new.items
        ≡ with_depth (named d names.old.items) name (weight_at d weight)) }
{
    names.push(Named { name, weight })?;
    Ok(())
}

/// The names in scope and one more.
pub(crate) fn with_name(
    alloc: Global,
    names: &[Named],
    name: u32,
    weight: &Weight,
) -> Result<Vec<Named>, AllocError>
    ensures { IfOk result (λ v. (d : Depths) → named d v.items
        ≡ with_depth (named d names.now) name (weight_at d weight.now)) }
{
    let mut all = copied(alloc, names)?;
    let weight = joined(nothing(alloc), 0, weight)?;
    enter(&mut all, name, weight)?;
    Ok(all)
}

/// What measures what a name stands for.
pub(crate) fn look_up(alloc: Global, names: &[Named], name: u32) -> Result<Weight, AllocError>
    ensures { IfOk result (λ w. (d : Depths) → weight_at d w ≡ named d names.now name) }
{
    let mut found = nothing(alloc);
    for known in names {
        found = chosen(alloc, found, known, name)?;
    }
    Ok(found)
}

/// What was found for a name, or what measures what a later name of the same number stands for.
fn chosen(alloc: Global, found: Weight, known: &Named, name: u32) -> Result<Weight, AllocError>
    ensures { IfOk result (λ w. (d : Depths) → weight_at d w
        ≡ (if eqb name known.now.name then weight_at d known.now.weight else weight_at d found)) }
{
    if name != known.name {
        return Ok(found);
    }
    let weight = joined(nothing(alloc), 0, &known.weight)?;
    Ok(weight)
}
