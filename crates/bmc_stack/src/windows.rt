//! Rows over the windows of all loops: `before` and `since` go along each by itself.

ghost use Rattle.std.specs.Prelude.{◌≡◌, ◌<◌, ◌+◌, ◌-◌, ◌++◌, ℕ, List, IfOk, OnOk, length, replicate};
ghost use Rattle.gate_trait.specs.Built.{Keeps, AllIn};
ghost use Rattle.gate_trait.specs.declared.node.Node.{Node as CircuitNode};
ghost use Rattle.bmc_windows.specs.Frames.{IsFrame};
ghost use Rattle.bmc_stack.specs.declared.windows.TimeOperator.TheVariants.{Before, Since};
ghost use Rattle.bmc_stack.specs.Rows.{AreBoth, IsSpread, IsPart, IsMoving, IsAlong, IsMoved, IsConstant};

use crate::basics::node_or_false;
use bmc_windows::{Frame, Stretch, found_at};
use gate_trait::{Gates, Node, NodeList};
use std::alloc::{AllocError, Global};

/// An operator that looks along a window.
#[derive(Clone, Copy, Debug, PartialEq, Eq)]
pub enum TimeOperator {
    /// Whether the second operand held at the position before. The first is not looked at.
    Before,
    /// Whether the second has held, and the first since then.
    Since,
}

/// The same node at each place.
fn everywhere<G: Gates>(
    alloc: Global,
    gates: &G,
    count: usize,
    node: Node,
) -> Result<NodeList, AllocError>
    requires { G.belongs gates.now node }
    ensures belongs { IfOk result (λ row. AllIn (G.belongs gates.now) row) }
    ensures nodes { IfOk result (λ row. row ≡ replicate count node) }
{
    // for the proof: only the clauses name the gates
    let _ = gates;
    let mut row = NodeList::new(alloc);
    for _place in 0..count {
        row.push(node)?;
    }
    Ok(row)
}

/// The constant at each place.
pub fn constantly<G: Gates>(
    alloc: Global,
    gates: &G,
    count: usize,
    value: bool,
) -> Result<NodeList, AllocError>
    ensures belongs { IfOk result (λ row. AllIn (G.belongs gates.now) row) }
    ensures values { IfOk result (λ row. IsConstant (G.node_value gates.now) count value row) }
{
    let node = gates.constant(value);
    let row = everywhere(alloc, gates, count, node)?;
    Ok(row)
}

/// Whether both hold. Its error is want of memory, or that the rows are of different lengths.
pub fn both<G: Gates>(
    alloc: Global,
    gates: &mut G,
    f: &NodeList,
    g: &NodeList,
) -> Result<NodeList, AllocError>
    requires f_belongs { AllIn (G.belongs gates.old) f.now }
    requires g_belongs { AllIn (G.belongs gates.old) g.now }
    ensures keeps { Keeps G.belongs G.node_value gates.old gates.new }
    ensures belongs { IfOk result (λ row. AllIn (G.belongs gates.new) row) }
    ensures both { IfOk result (λ row. AreBoth (G.node_value gates.old) (G.node_value gates.new)
        f.now g.now row) }
{
    if f.len() != g.len() {
        return Err(AllocError);
    }
    gate_temporal::both(alloc, gates, f, g)
}

/// The nodes from one place to before another; the constant false where there are none.
pub fn part<G: Gates>(
    alloc: Global,
    gates: &G,
    row: &NodeList,
    from: usize,
    to: usize,
) -> Result<NodeList, AllocError>
    requires { AllIn (G.belongs gates.now) row.now }
    ensures belongs { IfOk result (λ new. AllIn (G.belongs gates.now) new) }
    ensures part { IfOk result (λ new. IsPart (G.node_value gates.now) row.now from (to - from)
        new) }
{
    let mut new = NodeList::new(alloc);
    for place in 0..to.saturating_sub(from) {
        new.push(node_or_false(gates, row, from + place))?;
    }
    Ok(new)
}

/// The nodes at these places; the constant false where there are none.
pub fn spread<G: Gates>(
    alloc: Global,
    gates: &G,
    row: &NodeList,
    places: &[usize],
) -> Result<NodeList, AllocError>
    requires { AllIn (G.belongs gates.now) row.now }
    ensures belongs { IfOk result (λ new. AllIn (G.belongs gates.now) new) }
    ensures spread { IfOk result (λ new. IsSpread (G.node_value gates.now) row.now places.now new) }
{
    let mut new = NodeList::new(alloc);
    for number in 0..places.len() {
        let place = found_at(places, number);
        new.push(node_or_false(gates, row, place))?;
    }
    Ok(new)
}

/// Adds the nodes of a row at the end. Its error is want of memory.
pub fn append<G: Gates>(gates: &G, row: &mut NodeList, more: &NodeList) -> Result<(), AllocError>
    requires row { AllIn (G.belongs gates.now) row.old }
    requires more { AllIn (G.belongs gates.now) more.now }
    ensures belongs { AllIn (G.belongs gates.now) row.new }
    ensures nodes { OnOk result (row.new ≡ row.old ++ more.now) }
{
    // for the proof: only the clauses name the gates
    let _ = gates;
    for place in 0..more.len() {
        row.push(more.node(place))?;
    }
    Ok(())
}

/// Whether the second operand held at the place before.
fn before_in<G: Gates>(
    alloc: Global,
    gates: &mut G,
    f: &NodeList,
    g: &NodeList,
) -> Result<NodeList, AllocError>
    requires f_belongs { AllIn (G.belongs gates.old) f.now }
    requires g_belongs { AllIn (G.belongs gates.old) g.now }
    requires lengths { length f.now ≡ length g.now }
    requires some { 0 < length f.now }
    ensures keeps { Keeps G.belongs G.node_value gates.old gates.new }
    ensures belongs { IfOk result (λ row. AllIn (G.belongs gates.new) row) }
    ensures moving { IfOk result (λ row. IsMoving Before (G.node_value gates.old)
        (G.node_value gates.new) f.now g.now row) }
{
    // for the proof: only the clauses name the first operand
    let _ = f.len();
    let made = gate_temporal::before(alloc, gates, g)?;
    Ok(made)
}

/// Whether the second operand has held, and the first since then.
fn since_in<G: Gates>(
    alloc: Global,
    gates: &mut G,
    f: &NodeList,
    g: &NodeList,
) -> Result<NodeList, AllocError>
    requires f_belongs { AllIn (G.belongs gates.old) f.now }
    requires g_belongs { AllIn (G.belongs gates.old) g.now }
    requires lengths { length f.now ≡ length g.now }
    ensures keeps { Keeps G.belongs G.node_value gates.old gates.new }
    ensures belongs { IfOk result (λ row. AllIn (G.belongs gates.new) row) }
    ensures moving { IfOk result (λ row. IsMoving Since (G.node_value gates.old)
        (G.node_value gates.new) f.now g.now row) }
{
    let made = gate_temporal::since(alloc, gates, f, g)?;
    Ok(made)
}

/// The operator in one window. Its error is want of memory, or that the rows are of different lengths or
/// have no place.
fn in_window<G: Gates>(
    alloc: Global,
    gates: &mut G,
    op: TimeOperator,
    f: &NodeList,
    g: &NodeList,
) -> Result<NodeList, AllocError>
    requires f_belongs { AllIn (G.belongs gates.old) f.now }
    requires g_belongs { AllIn (G.belongs gates.old) g.now }
    ensures keeps { Keeps G.belongs G.node_value gates.old gates.new }
    ensures belongs { IfOk result (λ row. AllIn (G.belongs gates.new) row) }
    ensures moving { IfOk result (λ row. IsMoving op (G.node_value gates.old)
        (G.node_value gates.new) f.now g.now row) }
{
    if f.len() != g.len() || f.len() == 0 {
        return Err(AllocError);
    }
    match op {
        TimeOperator::Before => before_in(alloc, gates, f, g),
        TimeOperator::Since => since_in(alloc, gates, f, g),
    }
}

/// What the operator gives in a window.
fn along_window<G: Gates>(
    alloc: Global,
    gates: &mut G,
    op: TimeOperator,
    window: Stretch,
    f: &NodeList,
    g: &NodeList,
) -> Result<NodeList, AllocError>
    requires f_belongs { AllIn (G.belongs gates.old) f.now }
    requires g_belongs { AllIn (G.belongs gates.old) g.now }
    ensures keeps { Keeps G.belongs G.node_value gates.old gates.new }
    ensures belongs { IfOk result (λ row. AllIn (G.belongs gates.new) row) }
    ensures moved { IfOk result (λ row. IsMoved op (G.node_value gates.old) (G.node_value gates.new)
        window f.now g.now row) }
{
    let first = part(alloc, gates, f, window.start, window.end)?;
    let second = part(alloc, gates, g, window.start, window.end)?;
    let made = in_window(alloc, gates, op, &first, &second)?;
    Ok(made)
}

/// Adds what the operator gives in a window.
fn add_window<G: Gates>(
    alloc: Global,
    gates: &mut G,
    op: TimeOperator,
    window: Stretch,
    f: &NodeList,
    g: &NodeList,
    row: &mut NodeList,
) -> Result<(), AllocError>
    requires f_belongs { AllIn (G.belongs gates.old) f.now }
    requires g_belongs { AllIn (G.belongs gates.old) g.now }
    requires row { AllIn (G.belongs gates.old) row.old }
    ensures keeps { Keeps G.belongs G.node_value gates.old gates.new }
    ensures belongs { AllIn (G.belongs gates.new) row.new }
    ensures added { OnOk result ((more : List CircuitNode) × (row.new ≡ row.old ++ more)
        × IsMoved op (G.node_value gates.old) (G.node_value gates.new) window f.now g.now more) }
{
    let new = along_window(alloc, gates, op, window, f, g)?;
    append(gates, row, &new)
}

/// What the operator gives at each place.
pub fn moving<G: Gates>(
    alloc: Global,
    gates: &mut G,
    frame: &Frame,
    op: TimeOperator,
    f: &NodeList,
    g: &NodeList,
) -> Result<NodeList, AllocError>
    requires f_belongs { AllIn (G.belongs gates.old) f.now }
    requires g_belongs { AllIn (G.belongs gates.old) g.now }
    ensures keeps { Keeps G.belongs G.node_value gates.old gates.new }
    ensures belongs { IfOk result (λ row. AllIn (G.belongs gates.new) row) }
    ensures along { IfOk result (λ row. (states rounds : ℕ) → IsFrame states rounds frame.now
        → IsAlong op (G.node_value gates.old) (G.node_value gates.new) frame.now f.now g.now row) }
{
    let mut row = NodeList::new(alloc);
    for number in 0..frame.windows.len() {
        add_window(alloc, gates, op, frame.windows[number], f, g, &mut row)?;
    }
    Ok(row)
}
