//! Counts of nodes against a limit, by a sequential counter.

ghost use Rattle.std.specs.Prelude.{◌≡◌, ◌<◌, ◌≤◌, ◌+◌, ◌^◌, ◌↔◌, ℕ, Bool, true, count_by, length, IfOk, OnOk};
ghost use Rattle.gate_trait.specs.Built.{Keeps, AllIn};
ghost use Rattle.gate_integers.specs.Numbers.{bit};
ghost use Rattle.gate_integers.specs.Counts.{Tells};

use gate_trait::{Gates, Node, NodeList};
use std::alloc::{AllocError, Global};

/// Counts one more node: entry j of the row says whether more than j of the nodes so far are true.
fn count_one<G: Gates>(
    alloc: Global,
    gates: &mut G,
    row: &[Node],
    node: Node,
) -> Result<NodeList, AllocError>
    requires row_belongs { AllIn (G.belongs gates.old) row.now }
    requires node_belongs { G.belongs gates.old node }
    ensures keeps { Keeps G.belongs G.node_value gates.old gates.new }
    ensures belongs { IfOk result (λ next. AllIn (G.belongs gates.new) next) }
    ensures entries { IfOk result (λ next. length next ≡ length row.now) }
    ensures counts { IfOk result (λ next. (x : ℕ → Bool) (c : ℕ) →
        Tells (G.node_value gates.old x) row.now c
        → Tells (G.node_value gates.new x) next (c + bit (G.node_value gates.old x node))) }
{
    let mut next = NodeList::new(alloc);
    let mut below = gates.constant(true);
    for entry in row {
        let more = gates.choose(node, below, *entry)?;
        next.push(more)?;
        below = *entry;
    }
    Ok(next)
}

/// A row of so many entries before any node.
fn first_row<G: Gates>(alloc: Global, gates: &G, entries: usize) -> Result<NodeList, AllocError>
    ensures belongs { IfOk result (λ row. AllIn (G.belongs gates.now) row) }
    ensures entries { IfOk result (λ row. length row ≡ entries) }
    ensures tells { IfOk result (λ row. (x : ℕ → Bool) → Tells (G.node_value gates.now x) row 0) }
{
    let mut row = NodeList::new(alloc);
    for _entry in 0..entries {
        row.push(gates.constant(false))?;
    }
    Ok(row)
}

/// A row of so many entries after all nodes: a sequential counter.
fn last_row<G: Gates>(
    alloc: Global,
    gates: &mut G,
    nodes: &[Node],
    entries: usize,
) -> Result<NodeList, AllocError>
    requires nodes_belong { AllIn (G.belongs gates.old) nodes.now }
    ensures keeps { Keeps G.belongs G.node_value gates.old gates.new }
    ensures belongs { IfOk result (λ row. AllIn (G.belongs gates.new) row) }
    ensures entries { IfOk result (λ row. length row ≡ entries) }
    ensures tells { IfOk result (λ row. (x : ℕ → Bool) → Tells (G.node_value gates.new x) row
        (count_by (G.node_value gates.old x) nodes.now)) }
{
    let mut row = first_row(alloc, gates, entries)?;
    for node in nodes {
        let next = count_one(alloc, gates, row.as_slice(), *node)?;
        row = next;
    }
    Ok(row)
}

/// Whether at most so many of the nodes are true. It takes one gate for each node and each number
/// up to the limit.
pub fn at_most<G: Gates>(
    alloc: Global,
    gates: &mut G,
    nodes: &[Node],
    limit: u64,
) -> Result<Node, AllocError>
    requires { AllIn (G.belongs gates.old) nodes.now }
    ensures keeps { Keeps G.belongs G.node_value gates.old gates.new }
    ensures belongs { IfOk result (λ n. G.belongs gates.new n) }
    ensures value { IfOk result (λ n. (x : ℕ → Bool) → (G.node_value gates.new x n ≡ true)
        ↔ (count_by (G.node_value gates.old x) nodes.now ≤ limit)) }
{
    if limit >= nodes.len() as u64 {
        return Ok(gates.constant(true));
    }
    let row = last_row(alloc, gates, nodes, limit as usize + 1)?;
    let more = row.node(limit as usize);
    Ok(gates.not(more))
}

/// Whether just so many of the nodes are true.
pub fn exactly<G: Gates>(
    alloc: Global,
    gates: &mut G,
    nodes: &[Node],
    limit: u64,
) -> Result<Node, AllocError>
    requires { AllIn (G.belongs gates.old) nodes.now }
    ensures keeps { Keeps G.belongs G.node_value gates.old gates.new }
    ensures belongs { IfOk result (λ n. G.belongs gates.new n) }
    ensures value { IfOk result (λ n. (x : ℕ → Bool) → (G.node_value gates.new x n ≡ true)
        ↔ (count_by (G.node_value gates.old x) nodes.now ≡ limit)) }
{
    if limit > nodes.len() as u64 {
        return Ok(gates.constant(false));
    }
    let row = last_row(alloc, gates, nodes, limit as usize + 1)?;
    let more = row.node(limit as usize);
    let no_more = gates.not(more);
    if limit == 0 {
        return Ok(no_more);
    }
    let enough = row.node(limit as usize - 1);
    let exact = gates.and(enough, no_more)?;
    Ok(exact)
}
