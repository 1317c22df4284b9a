//! A matrix made of entries that were gathered in any order.

ghost use Rattle.std.specs.Prelude.{◌≡◌, ◌≢◌, ◌<◌, ◌≤◌, ℕ, Bool, List, [], ◌||◌, All, length, IfOk, Option, slice_index_or};
ghost use Rattle.std.specs.Option.{ForSome};
ghost use Rattle.std.specs.List.{list_any, AllWithin};
ghost use Rattle.std.specs.List.Sorted.{IsNonDecreasingBy};
ghost use Rattle.gate_trait.specs.Built.{Keeps};
ghost use Rattle.core_tuples.specs.Index.{IsNumber, index_of};
ghost use Rattle.gate_matrix.specs.declared.entry.Entry.{Entry as MatrixEntry};
ghost use Rattle.gate_matrix.specs.Matrices.{AllBelong, truth, truth_of, has};
ghost use Rattle.gate_matrix.specs.Merged.{OptionComputes};

use crate::entry::Entry;
use crate::matrix::Matrix;
use crate::merge::{add_some, unless_false};
use gate_trait::{Gates, Node};
use std::alloc::{AllocError, Global};

/// The matrix of the entries, in any order: a tuple is in its set where some entry has it with a
/// node that is true.
pub fn gathered<G: Gates>(
    alloc: Global,
    gates: &mut G,
    arity: u32,
    entries: Vec<Entry>,
) -> Result<Matrix, AllocError>
    requires least { 1 ≤ arity }
    requires most { arity ≤ 9 }
    requires columns { All (λ e. length e.tuple ≡ arity) entries.items }
    requires numbers { All (λ e. All IsNumber e.tuple) entries.items }
    requires belongs { AllBelong (G.belongs gates.old) entries.items }
    ensures keeps { Keeps G.belongs G.node_value gates.old gates.new }
    ensures belongs { IfOk result (λ m. AllBelong (G.belongs gates.new) m.entries) }
    ensures arity { IfOk result (λ m. m.arity ≡ arity) }
    ensures truth { IfOk result (λ m. (x : ℕ → Bool) (t : List ℕ) →
        truth (G.node_value gates.new x) m t
        ≡ has (G.node_value gates.old x) entries.items t) }
{
    let mut entries = entries;
    entries.sort_by_key(|entry: &Entry| entry.tuple.index())?;
    collapsed(alloc, gates, arity, &entries)
}

/// Where the entries from the place on end to have tuples with this index.
fn run_end(entries: &[Entry], place: usize, index: u128) -> usize
    requires { place ≤ length entries.now }
    ensures after { place ≤ result }
    ensures within { result ≤ length entries.now }
    ensures same { AllWithin (λ e. index_of e.tuple ≡ index) entries.now place result }
    ensures next { (d : MatrixEntry) → result < length entries.now →
        index_of (slice_index_or entries.now result d).tuple ≢ index }
{
    let mut end = place;
    while end < entries.len() {
        if entries[end].tuple.index() != index {
            return end;
        }
        end += 1;
    }
    end
}

/// Whether one of two nodes is true, where the first may be wanting.
fn either<G: Gates>(
    gates: &mut G,
    first: Option<Node>,
    second: Node,
) -> Result<Option<Node>, AllocError>
    requires first_belongs { ForSome first (λ n. G.belongs gates.old n) }
    requires second_belongs { G.belongs gates.old second }
    ensures keeps { Keeps G.belongs G.node_value gates.old gates.new }
    ensures ok { IfOk result (λ o. OptionComputes G.belongs G.node_value gates.new o
        (λ x. truth_of (G.node_value gates.old x) first || G.node_value gates.old x second)) }
{
    match first {
        None => Ok(unless_false(gates, second)),
        Some(first) => {
            let node = gates.or(first, second)?;
            Ok(unless_false(gates, node))
        }
    }
}

/// Whether some entry's node is true; no node stands for false.
pub(crate) fn any_of<G: Gates>(gates: &mut G, entries: &[Entry]) -> Result<Option<Node>, AllocError>
    requires { AllBelong (G.belongs gates.old) entries.now }
    ensures keeps { Keeps G.belongs G.node_value gates.old gates.new }
    ensures ok { IfOk result (λ o. OptionComputes G.belongs G.node_value gates.new o
        (λ x. list_any (λ e. G.node_value gates.old x e.node) entries.now)) }
{
    let mut any = None;
    for entry in entries {
        any = either(gates, any, entry.node)?;
    }
    Ok(any)
}

/// The matrix of the entries, which stand in order, those with the same tuple next to each other.
fn collapsed<G: Gates>(
    alloc: Global,
    gates: &mut G,
    arity: u32,
    entries: &[Entry],
) -> Result<Matrix, AllocError>
    requires least { 1 ≤ arity }
    requires most { arity ≤ 9 }
    requires columns { All (λ e. length e.tuple ≡ arity) entries.now }
    requires numbers { All (λ e. All IsNumber e.tuple) entries.now }
    requires belongs { AllBelong (G.belongs gates.old) entries.now }
    requires order { IsNonDecreasingBy (λ e. index_of e.tuple) entries.now }
    ensures keeps { Keeps G.belongs G.node_value gates.old gates.new }
    ensures belongs { IfOk result (λ m. AllBelong (G.belongs gates.new) m.entries) }
    ensures arity { IfOk result (λ m. m.arity ≡ arity) }
    ensures truth { IfOk result (λ m. (x : ℕ → Bool) (t : List ℕ) →
        truth (G.node_value gates.new x) m t
        ≡ has (G.node_value gates.old x) entries.now t) }
{
    let mut all = Vec::new(alloc);
    let mut place = 0;
    while place < entries.len() {
        let entry = &entries[place];
        let end = run_end(entries, place + 1, entry.tuple.index());
        let node = any_of(gates, &entries[place..end])?;
        add_some(alloc, &entry.tuple, node, &mut all)?;
        place = end;
    }
    Ok(Matrix::sorted(arity, all))
}
