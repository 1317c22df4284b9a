//! The sets of expressions without parts.

ghost use Rattle.std.specs.Prelude.{◌≡◌, ◌<◌, ◌+◌, IfOk, OnOk, length};
ghost use Rattle.core_tree.specs.Trees.{sig as sig_of, field as field_of, name as name_of, univ as everything, iden as identity, int as integers, empty as nothing};
ghost use Rattle.bmc_leaves.specs.Shown.{atom_in};
ghost use Rattle.bmc_stack.specs.Stored.{AreStored};
ghost use Rattle.bmc_walk.specs.Leaves.{HoldsLeaf, KeptSets};
ghost use Rattle.bmc_places.specs.Stores.{Extends};
ghost use Rattle.bmc_walk.specs.Walked.{atoms_of, HasSets};

use crate::walk::{Ground, Known};
use bmc_leaves::leaves::{name_sets, no_set};
use bmc_stack::Store;
use gate_trait::Gates;
use std::alloc::AllocError;

/// What the set of this number has, which was built before. Its error is want of memory, or that it
/// wasn't built.
fn kept_at(ground: &Ground<'_>, number: usize) -> Result<Vec<usize>, AllocError>
    ensures { IfOk result (λ v. HoldsLeaf ground.now.kept.now.items number v.items) }
{
    if number >= ground.kept.len() {
        return Err(AllocError);
    }
    let kept = &ground.kept[number];
    let count = kept.len();
    if count == 0 {
        return Err(AllocError);
    }
    let value = kept.to_vec(ground.alloc)?;
    Ok(value)
}

/// What the relation of this number has. Its error is want of memory, that there is no such relation, or
/// that its sets weren't built.
fn relation_at(ground: &Ground<'_>, number: usize) -> Result<Vec<usize>, AllocError>
    ensures inside { OnOk result (number
        < length ground.now.setting.bounds.now.relations) }
    ensures kept { IfOk result (λ v. HoldsLeaf ground.now.kept.now.items number v.items) }
{
    if number >= ground.setting.bounds.relations.len() {
        return Err(AllocError);
    }
    let value = kept_at(ground, number)?;
    Ok(value)
}

/// The number of the relation of a field: the fields stand behind the sigs.
fn field_number(ground: &Ground<'_>, field: u32) -> Result<usize, AllocError>
    ensures { IfOk result (λ n. n
        ≡ length ground.now.setting.scopes.now.numbers + field) }
{
    match ground
        .setting
        .scopes
        .numbers
        .len()
        .checked_add(field as usize)
    {
        Some(number) => Ok(number),
        None => Err(AllocError),
    }
}

/// The number of a constant, which stands so far behind those of the relations.
fn constant_number(ground: &Ground<'_>, behind: usize) -> Result<usize, AllocError>
    ensures { IfOk result (λ n. n
        ≡ length ground.now.setting.bounds.now.relations + behind) }
{
    match ground.setting.bounds.relations.len().checked_add(behind) {
        Some(number) => Ok(number),
        None => Err(AllocError),
    }
}

/// The sets of a sig.
pub fn sig_leaf(ground: &Ground<'_>, sig: u32) -> Result<Vec<usize>, AllocError>
    ensures { IfOk result (λ v. KeptSets ground.now (sig_of sig) v.items) }
{
    let value = relation_at(ground, sig as usize)?;
    Ok(value)
}

/// The sets of a field.
pub fn field_leaf(ground: &Ground<'_>, field: u32) -> Result<Vec<usize>, AllocError>
    ensures { IfOk result (λ v. KeptSets ground.now (field_of field) v.items) }
{
    let number = field_number(ground, field)?;
    let value = relation_at(ground, number)?;
    Ok(value)
}

/// The sets of `univ`.
pub fn univ_leaf(ground: &Ground<'_>) -> Result<Vec<usize>, AllocError>
    ensures { IfOk result (λ v. KeptSets ground.now everything v.items) }
{
    let number = constant_number(ground, 0)?;
    let value = kept_at(ground, number)?;
    Ok(value)
}

/// The sets of `iden`.
pub fn iden_leaf(ground: &Ground<'_>) -> Result<Vec<usize>, AllocError>
    ensures { IfOk result (λ v. KeptSets ground.now identity v.items) }
{
    let number = constant_number(ground, 1)?;
    let value = kept_at(ground, number)?;
    Ok(value)
}

/// The sets of `Int`.
pub fn int_leaf(ground: &Ground<'_>) -> Result<Vec<usize>, AllocError>
    ensures { IfOk result (λ v. KeptSets ground.now integers v.items) }
{
    let number = constant_number(ground, 2)?;
    let value = kept_at(ground, number)?;
    Ok(value)
}

/// The atom for which a name stands, if it stands for one.
pub fn atom_of(known: &Known<'_>, name: u32) -> Option<u32>
    ensures { result ≡ atom_in (atoms_of known.now) name }
{
    match known {
        Known::Nothing => None,
        Known::Atom(other, atom, rest) => {
            if name == *other {
                return Some(*atom);
            }
            atom_of(*rest, name)
        }
    }
}

/// The set of the atom for which a name stands; the empty set where it stands for none.
pub fn name_leaf<G: Gates>(
    ground: &Ground<'_>,
    gates: &G,
    store: &mut Store,
    name: u32,
    known: &Known<'_>,
) -> Result<Vec<usize>, AllocError>
    requires { AreStored (G.belongs gates.now) store.old }
    ensures stored { OnOk result (AreStored (G.belongs gates.now) store.new) }
    ensures extends { OnOk result (Extends store.old store.new) }
    ensures right { IfOk result (λ v. HasSets ground.now known.now (G.node_value gates.now)
        (G.node_value gates.now) store.old.matrices.items store.new.matrices.items (name_of name)
        v.items) }
{
    let atom = atom_of(known, name);
    let value = name_sets(ground.alloc, gates, store, &ground.setting, atom)?;
    Ok(value)
}

/// The empty set.
pub fn empty_leaf<G: Gates>(
    ground: &Ground<'_>,
    gates: &G,
    store: &mut Store,
    known: &Known<'_>,
) -> Result<Vec<usize>, AllocError>
    requires { AreStored (G.belongs gates.now) store.old }
    ensures stored { OnOk result (AreStored (G.belongs gates.now) store.new) }
    ensures extends { OnOk result (Extends store.old store.new) }
    ensures right { IfOk result (λ v. HasSets ground.now known.now (G.node_value gates.now)
        (G.node_value gates.now) store.old.matrices.items store.new.matrices.items nothing
        v.items) }
{
    // for the proof: only the clauses name what is known
    let _ = known;
    let value = no_set(ground.alloc, gates, store, &ground.setting)?;
    Ok(value)
}
