//! Operators and comparisons on integers, and the number of tuples of a set.

ghost use Rattle.std.specs.Prelude.{◌≡◌, ◌↔◌, ◌<◌, ◌<ℤ◌, ◌+ℤ◌, ℕ, Bool, true, IfOk, OnOk, length, map};
ghost use Rattle.gate_trait.specs.Built.{Keeps, AllIn};
ghost use Rattle.core_meaning.specs.Integers.{wrap, result_of};
ghost use Rattle.core_meaning.specs.Operators.{IsCount};
ghost use Rattle.core_meaning.specs.World.{World};
ghost use Rattle.gate_integers.specs.Numbers.{signed};
ghost use Rattle.gate_matrix.specs.Matrices.{AllBelong};
ghost use Rattle.gate_operators.specs.Sets.{set_of};
ghost use Rattle.gate_numbers.specs.Numbers.{AreSo, where_true};

use core_tree::{Comparison, IntOp};
use gate_arithmetic::operate;
use gate_integers::{Bits, equal_bits, less};
use gate_matrix::Matrix;
use gate_trait::{Gates, Node, NodeList};
use std::alloc::{AllocError, Global};

/// What the operator gives of two integers, wrapped to their width. Its error is want of memory, or that
/// the widths differ or are 0.
pub fn calculate<G: Gates>(
    alloc: Global,
    gates: &mut G,
    op: IntOp,
    a: &Bits,
    b: &Bits,
) -> Result<Bits, AllocError>
    requires a_belongs { AllIn (G.belongs gates.old) a.now }
    requires b_belongs { AllIn (G.belongs gates.old) b.now }
    ensures keeps { Keeps G.belongs G.node_value gates.old gates.new }
    ensures belongs { IfOk result (λ s. AllIn (G.belongs gates.new) s) }
    ensures fit { OnOk result (length a.now ≡ length b.now) }
    ensures width { IfOk result (λ s. length s ≡ length a.now) }
    ensures value { IfOk result (λ s. (x : ℕ → Bool) → signed (G.node_value gates.new x) s
        ≡ wrap (length a.now) (result_of op (signed (G.node_value gates.old x) a.now)
        (signed (G.node_value gates.old x) b.now))) }
{
    if a.len() != b.len() || a.is_empty() {
        return Err(AllocError);
    }
    operate(alloc, gates, op, a, b)
}

/// Whether the first integer isn't below the second.
fn at_least<G: Gates>(alloc: Global, gates: &mut G, a: &Bits, b: &Bits) -> Result<Node, AllocError>
    requires a_belongs { AllIn (G.belongs gates.old) a.now }
    requires b_belongs { AllIn (G.belongs gates.old) b.now }
    requires widths { length a.now ≡ length b.now }
    requires some { 0 < length a.now }
    ensures keeps { Keeps G.belongs G.node_value gates.old gates.new }
    ensures belongs { IfOk result (λ n. G.belongs gates.new n) }
    ensures value { IfOk result (λ n. (x : ℕ → Bool) → (G.node_value gates.new x n ≡ true)
        ↔ (¬ (signed (G.node_value gates.old x) a.now
        <ℤ signed (G.node_value gates.old x) b.now))) }
{
    let below = less(alloc, gates, a, b)?;
    let node = gates.not(below);
    Ok(node)
}

/// Whether two integers compare so. Its error is want of memory, or that the widths differ or are 0.
pub fn compare<G: Gates>(
    alloc: Global,
    gates: &mut G,
    op: Comparison,
    a: &Bits,
    b: &Bits,
) -> Result<Node, AllocError>
    requires a_belongs { AllIn (G.belongs gates.old) a.now }
    requires b_belongs { AllIn (G.belongs gates.old) b.now }
    ensures keeps { Keeps G.belongs G.node_value gates.old gates.new }
    ensures belongs { IfOk result (λ n. G.belongs gates.new n) }
    ensures value { IfOk result (λ n. (x : ℕ → Bool) → (G.node_value gates.new x n ≡ true)
        ↔ AreSo op (signed (G.node_value gates.old x) a.now)
        (signed (G.node_value gates.old x) b.now)) }
{
    if a.len() != b.len() || a.is_empty() {
        return Err(AllocError);
    }
    match op {
        Comparison::Equal => equal_bits(alloc, gates, a, b),
        Comparison::Less => less(alloc, gates, a, b),
        Comparison::Greater => less(alloc, gates, b, a),
        Comparison::AtMost => at_least(alloc, gates, b, a),
        Comparison::AtLeast => at_least(alloc, gates, a, b),
    }
}

/// The nodes of a matrix.
fn entry_nodes<G: Gates>(alloc: Global, gates: &G, matrix: &Matrix) -> Result<NodeList, AllocError>
    requires { AllBelong (G.belongs gates.now) matrix.now.entries }
    ensures belongs { IfOk result (λ row. AllIn (G.belongs gates.now) row) }
    ensures nodes { IfOk result (λ row. row ≡ map (λ e. e.node) matrix.now.entries) }
{
    let mut nodes = NodeList::new(alloc);
    let entries = matrix.entries();
    for entry in entries {
        nodes.push(entry.node)?;
    }
    // for the proof: only the clauses name the gates
    let _ = gates;
    Ok(nodes)
}

/// The wrapped number of tuples of a set.
pub fn count_of<G: Gates>(
    alloc: Global,
    gates: &mut G,
    width: u32,
    matrix: &Matrix,
) -> Result<Bits, AllocError>
    requires { AllBelong (G.belongs gates.old) matrix.now.entries }
    ensures keeps { Keeps G.belongs G.node_value gates.old gates.new }
    ensures belongs { IfOk result (λ s. AllIn (G.belongs gates.new) s) }
    ensures width { IfOk result (λ s. length s ≡ width) }
    ensures value { IfOk result (λ s. (x : ℕ → Bool) (w : World) → w.bits ≡ width
        → IsCount w (set_of (G.node_value gates.old x) matrix.now)
        (signed (G.node_value gates.new x) s)) }
{
    let nodes = entry_nodes(alloc, gates, matrix)?;
    // for the proof: this call's clause says that it is a matrix
    let _columns = matrix.arity();
    let made = gate_integers::count(alloc, gates, nodes.as_slice(), width)?;
    Ok(made)
}

/// The bits where the node is true, else those of 0.
fn masked<G: Gates>(alloc: Global, gates: &mut G, node: Node, b: &Bits) -> Result<Bits, AllocError>
    requires node { G.belongs gates.old node }
    requires b_belongs { AllIn (G.belongs gates.old) b.now }
    requires some { 0 < length b.now }
    ensures keeps { Keeps G.belongs G.node_value gates.old gates.new }
    ensures belongs { IfOk result (λ s. AllIn (G.belongs gates.new) s) }
    ensures width { IfOk result (λ s. length s ≡ length b.now) }
    ensures value { IfOk result (λ s. (x : ℕ → Bool) → signed (G.node_value gates.new x) s
        ≡ where_true (G.node_value gates.old x node) (signed (G.node_value gates.old x) b.now)) }
{
    let made = gate_integers::each::masked(alloc, gates, node, b.nodes())?;
    Ok(made)
}

/// The first integer and, where the node is true, the second. Its error is want of memory, or that the
/// widths differ or are 0.
pub fn masked_sum<G: Gates>(
    alloc: Global,
    gates: &mut G,
    node: Node,
    a: &Bits,
    b: &Bits,
) -> Result<Bits, AllocError>
    requires node { G.belongs gates.old node }
    requires a_belongs { AllIn (G.belongs gates.old) a.now }
    requires b_belongs { AllIn (G.belongs gates.old) b.now }
    ensures keeps { Keeps G.belongs G.node_value gates.old gates.new }
    ensures belongs { IfOk result (λ s. AllIn (G.belongs gates.new) s) }
    ensures width { IfOk result (λ s. length s ≡ length a.now) }
    ensures value { IfOk result (λ s. (x : ℕ → Bool) → signed (G.node_value gates.new x) s
        ≡ wrap (length a.now) (signed (G.node_value gates.old x) a.now
        +ℤ where_true (G.node_value gates.old x node) (signed (G.node_value gates.old x) b.now))) }
{
    if b.is_empty() {
        return Err(AllocError);
    }
    let more = masked(alloc, gates, node, b)?;
    let made = calculate(alloc, gates, IntOp::Add, a, &more)?;
    Ok(made)
}
