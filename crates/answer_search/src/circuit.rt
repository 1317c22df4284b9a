//! The circuit of a target: that of its naming, and then that of its scopes and formulas.

ghost use Rattle.std.specs.Prelude.{◌≡◌, ◌∷◌, IfOk};
ghost use Rattle.core_meaning.specs.Kept.{atom_count};
ghost use Rattle.bound_uppers.specs.Table.{IsTable, IsLayout};
ghost use Rattle.bound_naming.specs.Naming.{AreAllPairs};
ghost use Rattle.gate_trait.specs.Built.{AllIn};
ghost use Rattle.gate_trait.specs.Circuit.{BelongsTo, value_in};
ghost use Rattle.answer_search.specs.Circuit.{IsCircuit};

use bmc_encoder::{Encoded, encode};
use bmc_naming::naming;
use bound_naming::{NAMED_PAIRS, PairList, all_pairs};
use bound_uppers::numbers::spans_of;
use bound_uppers::{Bounds, Layout};
use core_meaning::{Scopes, Target};
use gate_store::CircuitStore;
use gate_trait::{Gates, Node, NodeList};
use std::alloc::{AllocError, Global};

/// A circuit whose inputs are the variables of a table with so many, under their own numbers. The only error is want of
/// memory.
pub fn table_store(alloc: Global, variables: u64) -> Result<CircuitStore, AllocError> {
    let mut store = CircuitStore::new(alloc);
    for variable in 0..variables {
        store.input(variable.saturating_add(1))?;
    }
    Ok(store)
}

/// The pairs of each two neighbouring atoms of sigs that the bounds don't tell apart. The only error is want of memory, or
/// that the scopes give more numbers than a universe has.
fn scope_pairs(
    alloc: Global,
    scopes: &Scopes,
    bounds: &Bounds,
    table: &Layout,
) -> Result<Vec<PairList>, AllocError>
    ensures { IsTable bounds.now → IsLayout bounds.now table.now → IfOk result (λ all.
        AreAllPairs bounds.now (atom_count scopes.now.numbers) NAMED_PAIRS all.items) }
{
    let spans = spans_of(alloc, scopes)?;
    let all = all_pairs(alloc, bounds, table, spans.integers.first)?;
    Ok(all)
}

/// A node before others.
fn with_first(alloc: Global, first: Node, rest: &NodeList) -> Result<NodeList, AllocError>
    ensures { IfOk result (λ nodes. nodes ≡ first ∷ rest.now) }
{
    let mut nodes = NodeList::new(alloc);
    nodes.push(first)?;
    for place in 0..rest.len() {
        nodes.push(rest.node(place))?;
    }
    Ok(nodes)
}

/// Adds the circuit of a target to a store, over the table of its bounds, whose variables have these numbers. Its first root
/// says whether a lasso is canonical; the others are those of the target's encoder. The only error is want of memory.
pub fn circuit_of(
    alloc: Global,
    target: &Target,
    bounds: &Bounds,
    table: &Layout,
    store: &mut CircuitStore,
) -> Result<Encoded, AllocError>
    ensures sure { IfOk result (λ e. BelongsTo store.new e.sure) }
    ensures roots { IfOk result (λ e. AllIn (BelongsTo store.new) e.roots) }
    ensures says { IfOk result (λ e. IsCircuit target.now bounds.now table.now (value_in store.new)
        e.sure e.roots) }
{
    let all = scope_pairs(alloc, &target.scopes, bounds, table)?;
    let name = naming(store, &all)?;
    let encoded = encode(alloc, target, bounds, table, store)?;
    let roots = with_first(alloc, name, &encoded.roots)?;
    Ok(Encoded {
        sure: encoded.sure,
        roots,
    })
}
