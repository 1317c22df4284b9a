//! Whether a lasso keeps the numbers of the scopes: a count of the atoms of each sig, as a node.

ghost use Rattle.std.specs.Prelude.{◌≡◌, ◌↔◌, ◌<◌, ◌+◌, ◌*◌, ℕ, Bool, true, false, IfOk, OnOk, Some, None, length, slice_get};
ghost use Rattle.std.specs.List.{count_by};
ghost use Rattle.gate_trait.specs.Built.{Keeps, Computes, AllIn};
ghost use Rattle.core_meaning.specs.declared.scopes.SigScope.{SigScope as ScopeOfSig};
ghost use Rattle.gate_temporal.specs.Rows.{row_value};
ghost use Rattle.core_meaning.specs.World.{World};
ghost use Rattle.core_meaning.specs.Kept.{IsWithin, KeepsNumber};
ghost use Rattle.bmc_leaves.specs.Table.{first_at, IsEver, Decodes};
ghost use Rattle.bmc_leaves.specs.Numbers.{KeepsAll};

use bound_uppers::{Bounds, Cells, Layout};
use core_meaning::{Scopes, SigScope};
use gate_trait::{Gates, Node, NodeList};
use std::alloc::{AllocError, Global};

/// The sum of two numbers, or the error of memory where it is too great.
fn sum_of(a: u64, b: u64) -> Result<u64, AllocError>
    ensures { IfOk result (λ n. n ≡ a + b) }
{
    match a.checked_add(b) {
        Some(sum) => Ok(sum),
        None => Err(AllocError),
    }
}

/// The product of two numbers, or the error of memory where it is too great.
fn product_of(a: u64, b: u64) -> Result<u64, AllocError>
    ensures { IfOk result (λ n. n ≡ a * b) }
{
    match a.checked_mul(b) {
        Some(product) => Ok(product),
        None => Err(AllocError),
    }
}

/// The variable of the first tuple at a state after the first one.
#[tactic(auto, using(crate::proofs::ScopeLaws::later_at))]
fn later_variable(cells: Cells, state: u32) -> Result<u64, AllocError>
    requires { 0 < state }
    ensures { IfOk result (λ n. n ≡ first_at false cells state) }
{
    let behind = product_of(u64::from(state - 1), cells.stride)?;
    let made = sum_of(cells.next, behind)?;
    Ok(made)
}

/// The variable of the first tuple of a relation at a state. Its error is that the number would be too
/// great.
#[tactic(auto, using(crate::proofs::ScopeLaws::fixed_at))]
pub fn first_variable(cells: Cells, fixed: bool, state: u32) -> Result<u64, AllocError>
    ensures { IfOk result (λ n. n ≡ first_at fixed cells state) }
{
    if fixed || state == 0 {
        return Ok(cells.first);
    }
    later_variable(cells, state)
}

/// Whether the tuple at a place of the upper bound is in the relation at a state.
fn in_state<G: Gates>(
    gates: &mut G,
    cells: Cells,
    fixed: bool,
    place: usize,
    state: u32,
) -> Result<Node, AllocError>
    ensures keeps { Keeps G.belongs G.node_value gates.old gates.new }
    ensures is { IfOk result (λ n. Computes G.belongs G.node_value gates.new n
        (λ x. x (first_at fixed cells state + place))) }
{
    let first = first_variable(cells, fixed, state)?;
    let variable = sum_of(first, place as u64)?;
    let node = gates.input(variable)?;
    Ok(node)
}

/// Whether the tuple at a place of the upper bound is in the relation at some state.
fn ever<G: Gates>(
    gates: &mut G,
    cells: Cells,
    fixed: bool,
    place: usize,
    states: u32,
) -> Result<Node, AllocError>
    ensures keeps { Keeps G.belongs G.node_value gates.old gates.new }
    ensures belongs { IfOk result (λ n. G.belongs gates.new n) }
    ensures ever { IfOk result (λ n. (x : ℕ → Bool) → (G.node_value gates.new x n ≡ true)
        ↔ IsEver x fixed cells states place) }
{
    let mut any = gates.constant(false);
    for state in 0..states {
        let next = in_state(gates, cells, fixed, place, state)?;
        any = gates.or(any, next)?;
    }
    Ok(any)
}

/// For each tuple of the upper bound, whether it is in the relation at some state.
fn ever_nodes<G: Gates>(
    alloc: Global,
    gates: &mut G,
    cells: Cells,
    fixed: bool,
    count: usize,
    states: u32,
) -> Result<NodeList, AllocError>
    ensures keeps { Keeps G.belongs G.node_value gates.old gates.new }
    ensures belongs { IfOk result (λ row. AllIn (G.belongs gates.new) row) }
    ensures long { IfOk result (λ row. length row ≡ count) }
    ensures ever { IfOk result (λ row. (x : ℕ → Bool) (j : ℕ) → j < count
        → (row_value (G.node_value gates.new x) row j ≡ true) ↔ IsEver x fixed cells states j) }
{
    let mut row = NodeList::new(alloc);
    for place in 0..count {
        let node = ever(gates, cells, fixed, place, states)?;
        row.push(node)?;
    }
    Ok(row)
}

/// The same of a fixed relation, which is looked at in one state alone.
fn fixed_nodes<G: Gates>(
    alloc: Global,
    gates: &mut G,
    cells: Cells,
    count: usize,
    states: u32,
) -> Result<NodeList, AllocError>
    requires { 0 < states }
    ensures keeps { Keeps G.belongs G.node_value gates.old gates.new }
    ensures belongs { IfOk result (λ row. AllIn (G.belongs gates.new) row) }
    ensures long { IfOk result (λ row. length row ≡ count) }
    ensures ever { IfOk result (λ row. (x : ℕ → Bool) (j : ℕ) → j < count
        → (row_value (G.node_value gates.new x) row j ≡ true) ↔ IsEver x true cells states j) }
{
    let row = ever_nodes(alloc, gates, cells, true, count, 1)?;
    // for the proof: only the clauses name the number of states
    let _ = states;
    Ok(row)
}

/// The same of a relation that is fixed or not.
fn sig_nodes<G: Gates>(
    alloc: Global,
    gates: &mut G,
    cells: Cells,
    fixed: bool,
    count: usize,
    states: u32,
) -> Result<NodeList, AllocError>
    requires { 0 < states }
    ensures keeps { Keeps G.belongs G.node_value gates.old gates.new }
    ensures belongs { IfOk result (λ row. AllIn (G.belongs gates.new) row) }
    ensures long { IfOk result (λ row. length row ≡ count) }
    ensures ever { IfOk result (λ row. (x : ℕ → Bool) (j : ℕ) → j < count
        → (row_value (G.node_value gates.new x) row j ≡ true) ↔ IsEver x fixed cells states j) }
{
    if fixed {
        return fixed_nodes(alloc, gates, cells, count, states);
    }
    ever_nodes(alloc, gates, cells, false, count, states)
}

/// Whether so many of the nodes are true as the scope allows.
fn keeps_number<G: Gates>(
    alloc: Global,
    gates: &mut G,
    nodes: &NodeList,
    number: u64,
    exact: bool,
) -> Result<Node, AllocError>
    requires { AllIn (G.belongs gates.old) nodes.now }
    ensures keeps { Keeps G.belongs G.node_value gates.old gates.new }
    ensures belongs { IfOk result (λ n. G.belongs gates.new n) }
    ensures within { IfOk result (λ n. (x : ℕ → Bool) → (G.node_value gates.new x n ≡ true)
        ↔ IsWithin exact number (count_by (G.node_value gates.old x) nodes.now)) }
{
    if exact {
        return gate_integers::exactly(alloc, gates, nodes.as_slice(), number);
    }
    gate_integers::at_most(alloc, gates, nodes.as_slice(), number)
}

/// Where the variables of a relation stand.
#[tactic(auto, using(std::proofs::lemmas::Option::slice_get_read))]
pub fn cells_of(cells: &[Cells], relation: usize) -> Cells
    requires { relation < length cells.now }
    ensures { slice_get cells.now relation ≡ Some result }
{
    cells[relation]
}

/// The scope of a sig.
#[tactic(auto, using(std::proofs::lemmas::Option::slice_get_read))]
fn scope_of(numbers: &[SigScope], sig: usize) -> SigScope
    requires { sig < length numbers.now }
    ensures { slice_get numbers.now sig ≡ Some result }
{
    numbers[sig]
}

/// Whether a sig keeps this number. Its error is want of memory, that the sig has no bound, or that its
/// bound has more columns than one.
fn number_kept<G: Gates>(
    alloc: Global,
    gates: &mut G,
    bounds: &Bounds,
    layout: &Layout,
    sig: usize,
    number: u64,
    exact: bool,
) -> Result<Node, AllocError>
    requires { 0 < bounds.now.states }
    ensures keeps { Keeps G.belongs G.node_value gates.old gates.new }
    ensures belongs { IfOk result (λ n. G.belongs gates.new n) }
    ensures kept { IfOk result (λ n. (x : ℕ → Bool) (w : World) (scope : ScopeOfSig) →
        Decodes bounds.now layout.now x w.lasso
        → scope.number ≡ Some number → scope.exact ≡ exact → (G.node_value gates.new x n ≡ true)
        ↔ KeepsNumber w sig scope) }
{
    let relations = bounds.relations.as_slice();
    let cells = layout.relations.as_slice();
    if sig >= relations.len() || sig >= cells.len() {
        return Err(AllocError);
    }
    let bound = &relations[sig];
    if bound.upper.arity() != 1 {
        return Err(AllocError);
    }
    let count = bound.upper.len();
    let kept = cells_of(cells, sig);
    let nodes = sig_nodes(alloc, gates, kept, bound.fixed, count, bounds.states)?;
    let node = keeps_number(alloc, gates, &nodes, number, exact)?;
    Ok(node)
}

/// Whether the sig keeps its number.
fn sig_keeps<G: Gates>(
    alloc: Global,
    gates: &mut G,
    bounds: &Bounds,
    layout: &Layout,
    sig: usize,
    scope: SigScope,
) -> Result<Node, AllocError>
    requires { 0 < bounds.now.states }
    ensures keeps { Keeps G.belongs G.node_value gates.old gates.new }
    ensures belongs { IfOk result (λ n. G.belongs gates.new n) }
    ensures kept { IfOk result (λ n. (x : ℕ → Bool) (w : World) →
        Decodes bounds.now layout.now x w.lasso
        → (G.node_value gates.new x n ≡ true) ↔ KeepsNumber w sig scope) }
{
    match scope.number {
        None => {
            let free = gates.constant(true);
            Ok(free)
        }
        Some(number) => {
            let node = number_kept(alloc, gates, bounds, layout, sig, number, scope.exact)?;
            Ok(node)
        }
    }
}

/// Whether all sigs keep their numbers. Its error is want of memory, that a sig with a number has no
/// bound, or that a variable's number would be too great.
pub fn keeps_numbers<G: Gates>(
    alloc: Global,
    gates: &mut G,
    bounds: &Bounds,
    layout: &Layout,
    scopes: &Scopes,
) -> Result<Node, AllocError>
    requires { 0 < bounds.now.states }
    ensures keeps { Keeps G.belongs G.node_value gates.old gates.new }
    ensures belongs { IfOk result (λ n. G.belongs gates.new n) }
    ensures kept { IfOk result (λ n. (x : ℕ → Bool) (w : World) →
        Decodes bounds.now layout.now x w.lasso
        → (G.node_value gates.new x n ≡ true) ↔ KeepsAll scopes.now.numbers w) }
{
    let mut all = gates.constant(true);
    let numbers = scopes.numbers.as_slice();
    for sig in 0..numbers.len() {
        let scope = scope_of(numbers, sig);
        let kept = sig_keeps(alloc, gates, bounds, layout, sig, scope)?;
        all = gates.and(all, kept)?;
    }
    Ok(all)
}
