//! The fields of each owner, linked: the owners are the sigs, and last what stands for none.

ghost use Rattle.std.specs.Prelude.{◌≡◌, ◌<◌, ◌≤◌, ◌+◌, ◌^◌, ◌++◌, ◌∷◌, [], length, vec_len, slice_set, slice_index, IfOk, OnOk};
ghost use Rattle.answer_trace.specs.Owners.{owner_at, IsLinked};

use core_tree::Model;
use std::alloc::{AllocError, Global};

/// The fields of each owner, linked. The owners are the sigs, and last what stands for none.
///
/// A link is 0 where none is next, and else tells how far the next field stands from the end of the model's fields.
#[derive(Drop)]
pub struct Owners {
    /// For each owner a link to the first of its fields.
    pub heads: Vec<u32>,
    /// For each field, from the last one on, a link to the next one of its owner.
    pub next: Vec<u32>,
}

/// The owner of a field, or the number of sigs where no sig of the model owns it.
fn owner_of(model: &Model, field: usize) -> usize
    requires { field < length model.now.fields }
    ensures owner { result ≡ owner_at model.now field }
    ensures bound { result ≤ length model.now.sigs }
{
    let sigs = model.sigs.len();
    match model.fields.get(field).owner {
        Some(owner) => {
            if (owner as usize) < sigs {
                owner as usize
            } else {
                sigs
            }
        }
        None => sigs,
    }
}

/// Puts the field before the last so many in front of those of its owner.
fn link(
    heads: &mut Vec<u32>,
    next: &mut Vec<u32>,
    owner: usize,
    count: u32,
) -> Result<(), AllocError>
    requires owner { owner < vec_len heads.old }
    requires count { count + 1 < 2 ^ 32 }
    ensures heads { OnOk result (heads.new.items ≡ slice_set heads.old.items owner (count + 1)) }
    ensures next { OnOk result (next.new.items ≡ next.old.items
        ++ slice_index heads.old.items owner ∷ []) }
{
    next.push(heads[owner])?;
    heads[owner] = count + 1;
    Ok(())
}

impl Owners {
    /// The fields of each owner of a model.
    pub fn new(alloc: Global, model: &Model) -> Result<Owners, AllocError>
        requires { length model.now.sigs + length model.now.fields < 2 ^ 32 }
        ensures { IfOk result (λ o. IsLinked model.now o.heads.items o.next.items
            (length model.now.fields)) }
    {
        let fields = model.fields.len();
        let mut heads = vec![in alloc; 0u32; model.sigs.len() + 1]?;
        let mut next: Vec<u32> = Vec::new(alloc);
        for count in 0..fields {
            let owner = owner_of(model, fields - 1 - count);
            link(&mut heads, &mut next, owner, count as u32)?;
        }
        Ok(Owners { heads, next })
    }
}
