//! The leaves of an `and`: the nodes whose conjunction it is, where operands without a variable are opened.

ghost use Rattle.std.specs.Prelude.{◌≡◌, ◌&&◌, ◌++◌, ◌∷◌, [], ℕ, Bool, List, All, OnOk, IfOk, IfSome, IfNone};
ghost use Rattle.gate_trait.specs.Circuit.{value_among, gate_value};
ghost use Rattle.gate_tseitin.specs.Reached.{HasMark};
ghost use Rattle.gate_tseitin.specs.Shown.{AreComputed, AreLinked, IsOperand, PartsKept, all_nodes, value_over};

use crate::reach::is_marked;
use gate_store::CircuitStore;
use gate_trait::{Gate, Node};
use std::alloc::{AllocError, Global};

/// Takes the last node away, or None where there is none.
fn take_last(nodes: &mut Vec<Node>) -> Option<Node>
    ensures some { IfSome result (λ n. nodes.old.items ≡ nodes.new.items ++ n ∷ []) }
    ensures none { IfNone result (nodes.old.items ≡ []) }
{
    nodes.pop()
}

/// Opens an operand: one whose gate is kept is a leaf, and of another the two operands wait.
fn open_operand(
    store: &CircuitStore,
    marks: &[bool],
    kept: &[bool],
    node: Node,
    waiting: &mut Vec<Node>,
    leaves: &mut Vec<Node>,
) -> Result<(), AllocError>
    requires linked { AreLinked store.now marks.now kept.now }
    requires operand { IsOperand marks.now kept.now node }
    ensures waiting { OnOk result (All (IsOperand marks.now kept.now) waiting.old.items →
        All (IsOperand marks.now kept.now) waiting.new.items) }
    ensures kept { OnOk result (All (HasMark kept.now) leaves.old.items →
        All (HasMark kept.now) leaves.new.items) }
    ensures value { OnOk result ((v : ℕ → Bool) (vs : List Bool) →
        AreComputed store.now kept.now v vs →
        (all_nodes vs leaves.new.items && all_nodes vs waiting.new.items)
        ≡ (all_nodes vs leaves.old.items && (all_nodes vs waiting.old.items
        && value_among vs node))) }
{
    // for the proof: only the clauses name the marks
    let _ = marks;
    if is_marked(kept, node.number()) {
        leaves.push(node)?;
        return Ok(());
    }
    match store.gate(node.number()) {
        Gate::And(a, b) => {
            waiting.push(b)?;
            waiting.push(a)?;
            Ok(())
        }
        // No other gate is without a variable, so this is never met.
        _ => Err(AllocError),
    }
}

/// The leaves of the `and` of two operands, from the first to the last.
fn leaves_below(
    alloc: Global,
    store: &CircuitStore,
    marks: &[bool],
    kept: &[bool],
    a: Node,
    b: Node,
) -> Result<Vec<Node>, AllocError>
    requires linked { AreLinked store.now marks.now kept.now }
    requires first { IsOperand marks.now kept.now a }
    requires second { IsOperand marks.now kept.now b }
    ensures kept { IfOk result (λ leaves. All (HasMark kept.now) leaves.items) }
    ensures value { IfOk result (λ leaves. (v : ℕ → Bool) (vs : List Bool) →
        AreComputed store.now kept.now v vs →
        all_nodes vs leaves.items ≡ (value_among vs a && value_among vs b)) }
{
    let mut leaves = Vec::new(alloc);
    let mut waiting = Vec::new(alloc);
    waiting.push(b)?;
    waiting.push(a)?;
    // The bound only makes the loop end: memory would be wanting before there are so many leaves.
    for _turn in 0..u64::MAX {
        match take_last(&mut waiting) {
            None => return Ok(leaves),
            Some(node) => open_operand(store, marks, kept, node, &mut waiting, &mut leaves)?,
        }
    }
    Err(AllocError)
}

/// The leaves of a gate, if it is an `and`; else none.
pub fn leaves_of(
    alloc: Global,
    store: &CircuitStore,
    marks: &[bool],
    kept: &[bool],
    gate: Gate,
) -> Result<Vec<Node>, AllocError>
    requires linked { AreLinked store.now marks.now kept.now }
    requires parts { PartsKept marks.now kept.now gate }
    ensures kept { IfOk result (λ leaves. All (HasMark kept.now) leaves.items) }
    ensures value { IfOk result (λ leaves. (v : ℕ → Bool) (vs : List Bool) →
        AreComputed store.now kept.now v vs →
        value_over vs v leaves.items gate ≡ gate_value vs v gate) }
{
    match gate {
        Gate::And(a, b) => {
            let leaves = leaves_below(alloc, store, marks, kept, a, b)?;
            Ok(leaves)
        }
        Gate::Constant(_) => Ok(Vec::new(alloc)),
        Gate::Input(_) => Ok(Vec::new(alloc)),
        Gate::Or(_, _) => Ok(Vec::new(alloc)),
        Gate::Xor(_, _) => Ok(Vec::new(alloc)),
        Gate::Choose(_, _, _) => Ok(Vec::new(alloc)),
    }
}
