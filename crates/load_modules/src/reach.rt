//! Tests that opens lead from the root's instance to all others.

ghost use Rattle.std.specs.Prelude.{◌≡◌, ℕ, ◌<◌, true, false, IfOk, IfSome, Contains, Some, length, slice_get, slice_set, replicate};
ghost use Rattle.syntax_tree.specs.declared.instance.Opened.{Opened as OpenedOf};
ghost use Rattle.load_modules.specs.Reached.{IsPlain, HasOpen, IsReached, AreMarked, AreReached};

use std::alloc::{AllocError, Global};
use syntax_tree::{Instance, Opened};

/// Tests that the first instance is that of the first text, and that opens lead from it to all others. Where one were left over,
/// the answer would be want of memory.
#[tactic(auto, using(crate::proofs::Reached::all_reached))]
pub fn reach_all(alloc: Global, instances: &[Instance]) -> Result<(), AllocError>
    ensures { IfOk result (λ done. AreReached instances.now) }
{
    let Some(root) = instance_at(instances, 0) else {
        return Err(AllocError);
    };
    if !is_plain(root, 0) {
        return Err(AllocError);
    }
    let all = are_reached(alloc, instances)?;
    if !all {
        return Err(AllocError);
    }
    Ok(())
}

/// The instance of this number.
pub fn instance_at<'a>(instances: &'a [Instance], number: usize) -> Option<&'a Instance>
    ensures { IfSome result (λ instance. slice_get instances.now number ≡ Some instance.now) }
{
    instances.get(number)
}

/// Whether an instance has this text, and no arguments.
#[tactic(auto, using(crate::proofs::Reached::is_plain))]
pub fn is_plain(instance: &Instance, text: u32) -> bool
    ensures { result ≡ true → IsPlain text instance.now }
{
    instance.text == text && instance.arguments.len() == 0
}

/// Whether opens lead from the first instance to all. Each is opened by one before it, so that one pass marks them.
#[tactic(auto, using(crate::proofs::Reached::done_more, crate::proofs::Reached::done_none))]
fn are_reached(alloc: Global, instances: &[Instance]) -> Result<bool, AllocError>
    ensures { IfOk result (λ all. all ≡ true →
        (n : ℕ) → n < length instances.now → IsReached instances.now n) }
{
    let mut marks = first_mark(alloc, instances)?;
    for number in 0..instances.len() {
        if !passes(instances, number, &mut marks) {
            return Ok(false);
        }
    }
    Ok(true)
}

/// The mark of the first instance.
#[tactic(auto, using(crate::proofs::Reached::first_marked))]
fn first_mark(alloc: Global, instances: &[Instance]) -> Result<Vec<bool>, AllocError>
    ensures { IfOk result (λ marks. AreMarked instances.now marks.items) }
{
    let mut marks = no_marks(alloc, instances.len())?;
    mark(0, &mut marks);
    Ok(marks)
}

/// So many marks, none of them set.
fn no_marks(alloc: Global, count: usize) -> Result<Vec<bool>, AllocError>
    ensures { IfOk result (λ marks. marks.items ≡ replicate count false) }
{
    let mut marks = Vec::new(alloc);
    for _ in 0..count {
        marks.push(false)?;
    }
    Ok(marks)
}

/// Sets the mark of the instance of this number.
fn mark(number: usize, marks: &mut Vec<bool>)
    ensures { marks.new.items ≡ slice_set marks.old.items number true }
{
    if number < marks.len() {
        marks[number] = true;
    }
}

/// Whether the instance of this number is marked.
fn is_marked(number: usize, marks: &[bool]) -> bool
    ensures { result ≡ true → slice_get marks.now number ≡ Some true }
{
    match marks.get(number) {
        Some(mark) => *mark,
        None => false,
    }
}

/// The opens of the instance of this number.
#[tactic(auto, using(crate::proofs::Reached::own_open))]
fn opens_of(instances: &[Instance], number: usize) -> &[Opened]
    requires inside { number < length instances.now }
    ensures { (o : OpenedOf) → Contains result.now o → HasOpen instances.now number o }
{
    instances[number].opens.as_slice()
}

/// Marks the instances to which the opens of the instance of this number lead, where it is marked itself.
#[tactic(auto, using(crate::proofs::Reached::marked_reached))]
fn passes(instances: &[Instance], number: usize, marks: &mut Vec<bool>) -> bool
    requires inside { number < length instances.now }
    requires marked { AreMarked instances.now marks.old.items }
    ensures marked { AreMarked instances.now marks.new.items }
    ensures reached { result ≡ true → IsReached instances.now number }
{
    if !is_marked(number, marks.as_slice()) {
        return false;
    }
    let opens = opens_of(instances, number);
    mark_opened(instances, number, opens, marks);
    true
}

/// Marks the instances to which opens lead that the instance of this number has.
fn mark_opened(instances: &[Instance], number: usize, opens: &[Opened], marks: &mut Vec<bool>)
    requires reached { IsReached instances.now number }
    requires own { (o : OpenedOf) → Contains opens.now o → HasOpen instances.now number o }
    requires marked { AreMarked instances.now marks.old.items }
    ensures { AreMarked instances.now marks.new.items }
{
    // for the proof: only the clauses name the instance
    let _ = instances;
    let _ = number;
    for opened in opens {
        mark(opened.instance as usize, marks);
    }
}
