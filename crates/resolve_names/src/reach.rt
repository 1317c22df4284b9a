//! An instance reaches others by opens, over any number of them.

ghost use Rattle.std.specs.Prelude.{◌≡◌, ◌⊎◌, ℕ, ◌<◌, false, Contains, All, IfOk, IfSome, IfNone, Some, true, [], length, slice_get, slice_set, replicate};
ghost use Rattle.std.specs.Bool.{Decides};
ghost use Rattle.resolve_names.specs.declared.table.Link.{Link};
ghost use Rattle.resolve_names.specs.Marks.{IsMarked, IsLinked, IsNext, IsClosed, IsBegun, AreReached};
ghost use Rattle.resolve_names.specs.Visible.{HasOpen};

use crate::table::{Link, Namespace};
use std::alloc::{AllocError, Global};

/// Whether the instance has no mark yet.
fn is_free(marks: &[bool], instance: usize) -> bool
    ensures { Decides result (slice_get marks.now instance ≡ Some false) }
{
    match marks.get(instance) {
        Some(mark) => !*mark,
        None => false,
    }
}

/// Whether the instance has a mark.
pub fn is_marked(marks: &[bool], instance: usize) -> bool
    ensures { Decides result (IsMarked marks.now instance) }
{
    match marks.get(instance) {
        Some(mark) => *mark,
        None => false,
    }
}

/// An instance without a mark to which an open of the list leads that isn't private.
fn free_open(opens: &[Link], marks: &[bool]) -> Option<usize>
    ensures some { IfSome result (λ t. (o : Link) × Contains opens.now o × (o.is_private ≡ false)
        × (o.instance ≡ t) × (slice_get marks.now t ≡ Some false)) }
    ensures none { IfNone result (All (λ o. o.is_private ≡ false →
        slice_get marks.now o.instance ≡ Some false → ⊥) opens.now) }
{
    for open in opens {
        if !open.is_private && is_free(marks, open.instance as usize) {
            return Some(open.instance as usize);
        }
    }
    None
}

/// An instance without a mark to which an open of a marked one leads that isn't private.
fn next(scopes: &[Namespace], marks: &[bool]) -> Option<usize>
    ensures some { IfSome result (λ t. IsNext scopes.now marks.now t) }
    ensures none { IfNone result (IsClosed scopes.now marks.now) }
{
    for number in 0..scopes.len() {
        if is_marked(marks, number) {
            if let Some(target) = free_open(scopes[number].opens.as_slice(), marks) {
                return Some(target);
            }
        }
    }
    None
}

/// Marks each instance to which opens that aren't private lead from marked ones.
fn spread(scopes: &[Namespace], from: usize, opens: &[Link], marks: &mut Vec<bool>)
    requires begun { IsBegun scopes.now from opens.now marks.old.items }
    ensures begun { IsBegun scopes.now from opens.now marks.new.items }
    ensures closed { IsClosed scopes.now marks.new.items }
{
    // for the proof: only the clauses name the instance and its opens
    let _ = from;
    let _ = opens;
    while let Some(target) = next(scopes, marks.as_slice()) {
        mark(target, marks);
    }
}

/// Marks of no instance.
pub fn no_marks(alloc: Global, count: usize) -> Result<Vec<bool>, AllocError>
    ensures { IfOk result (λ m. m.items ≡ replicate count false) }
{
    let mut marks = Vec::new(alloc);
    for _ in 0..count {
        marks.push(false)?;
    }
    Ok(marks)
}

/// Marks an instance.
pub fn mark(instance: usize, marks: &mut Vec<bool>)
    ensures { marks.new.items ≡ slice_set marks.old.items instance true }
{
    if instance < marks.len() {
        marks[instance] = true;
    }
}

/// Marks the instances to which the opens lead.
fn mark_all(scopes: &[Namespace], from: usize, opens: &[Link], marks: &mut Vec<bool>)
    requires linked { IsLinked scopes.now }
    requires begun { IsBegun scopes.now from [] marks.old.items }
    requires own { (o : Link) → Contains opens.now o → HasOpen scopes.now from o }
    ensures { IsBegun scopes.now from opens.now marks.new.items }
{
    // for the proof: only the clauses name the instance and the scopes
    let _ = from;
    let _ = scopes;
    for open in opens {
        mark(open.instance as usize, marks);
    }
}

/// Marks of one instance.
fn first_mark(alloc: Global, scopes: &[Namespace], from: usize) -> Result<Vec<bool>, AllocError>
    requires from { from < length scopes.now }
    ensures { IfOk result (λ m. IsBegun scopes.now from [] m.items) }
{
    let mut marks = no_marks(alloc, scopes.len())?;
    mark(from, &mut marks);
    Ok(marks)
}

/// The instance's opens.
pub fn opens_of(scopes: &[Namespace], from: usize) -> &[Link]
    requires from { from < length scopes.now }
    ensures own { (o : Link) → Contains result.now o → HasOpen scopes.now from o }
    ensures all { (o : Link) → HasOpen scopes.now from o → Contains result.now o }
{
    scopes[from].opens.as_slice()
}

/// The instances that an instance reaches, by their marks.
pub fn reached(alloc: Global, scopes: &[Namespace], from: usize) -> Result<Vec<bool>, AllocError>
    requires from { from < length scopes.now }
    requires linked { IsLinked scopes.now }
    ensures { IfOk result (λ m. AreReached scopes.now from m.items) }
{
    let mut marks = first_mark(alloc, scopes, from)?;
    let opens = opens_of(scopes, from);
    mark_all(scopes, from, opens, &mut marks);
    spread(scopes, from, opens, &mut marks);
    Ok(marks)
}
