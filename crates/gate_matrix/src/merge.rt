//! Union, intersection, difference and symmetric difference: one walk along both matrices.

ghost use Rattle.std.specs.Prelude.{◌≡◌, ◌≤◌, ◌++◌, ℕ, Bool, List, ◌&&◌, ◌||◌, not, All, drop, length, IfOk, OnOk, Some, None};
ghost use Rattle.std.specs.Option.{ForSome};
ghost use Rattle.gate_trait.specs.Built.{Keeps, xor};
ghost use Rattle.core_tuples.specs.Merged.{heads};
ghost use Rattle.gate_matrix.specs.Matrices.{AllBelong, IsMatrix, truth, truth_of, has, tuples_of};
ghost use Rattle.gate_matrix.specs.Merged.{combine, OptionComputes, IsAdded, entries_of};

use crate::entry::Entry;
use crate::matrix::Matrix;
use core_tuples::Keyed;
use gate_trait::{Gates, Node};
use std::alloc::{AllocError, Global};
use std::cmp::Ordering;

/// How a merge of two sets decides which tuples are kept.
#[derive(Clone, Copy, Debug, PartialEq, Eq)]
pub enum Rule {
    /// Those that are in at least one of the sets.
    Union,
    /// Those that are in both sets.
    Intersection,
    /// Those that are in the first set and not in the second.
    Difference,
    /// Those that are in just one of the sets.
    Exclusive,
}

/// The node, unless it is the constant false.
pub(crate) fn unless_false<G: Gates>(gates: &G, node: Node) -> Option<Node>
    requires { G.belongs gates.now node }
    ensures belongs { ForSome result (λ n. G.belongs gates.now n) }
    ensures truth { (x : ℕ → Bool) → truth_of (G.node_value gates.now x) result
        ≡ G.node_value gates.now x node }
{
    if node == gates.constant(false) {
        None
    } else {
        Some(node)
    }
}

/// Whether a tuple is kept that has these nodes in the two sets.
fn combined<G: Gates>(
    gates: &mut G,
    rule: Rule,
    first: Option<Node>,
    second: Option<Node>,
) -> Result<Option<Node>, AllocError>
    requires first_belongs { ForSome first (λ n. G.belongs gates.old n) }
    requires second_belongs { ForSome second (λ n. G.belongs gates.old n) }
    ensures keeps { Keeps G.belongs G.node_value gates.old gates.new }
    ensures ok { IfOk result (λ o. OptionComputes G.belongs G.node_value gates.new o
        (λ x. combine rule (truth_of (G.node_value gates.old x) first)
        (truth_of (G.node_value gates.old x) second))) }
{
    match (rule, first, second) {
        (Rule::Union, Some(a), Some(b)) => {
            let node = gates.or(a, b)?;
            Ok(unless_false(gates, node))
        }
        (Rule::Union, None, other) => Ok(other),
        (Rule::Union, Some(a), None) => Ok(Some(a)),
        (Rule::Intersection, Some(a), Some(b)) => {
            let node = gates.and(a, b)?;
            Ok(unless_false(gates, node))
        }
        (Rule::Difference, Some(a), Some(b)) => {
            let absent = gates.not(b);
            let node = gates.and(a, absent)?;
            Ok(unless_false(gates, node))
        }
        (Rule::Difference, Some(a), None) => Ok(Some(a)),
        (Rule::Exclusive, Some(a), Some(b)) => {
            let node = gates.xor(a, b)?;
            Ok(unless_false(gates, node))
        }
        (Rule::Exclusive, None, other) => Ok(other),
        (Rule::Exclusive, Some(a), None) => Ok(Some(a)),
        (_, _, _) => Ok(None),
    }
}

/// Adds a tuple with its node, if it has one.
pub fn add_some(
    alloc: Global,
    tuple: &Keyed,
    node: Option<Node>,
    all: &mut Vec<Entry>,
) -> Result<(), AllocError>
    ensures { OnOk result (all.new.items ≡ all.old.items ++ entries_of tuple.now node) }
{
    if let Some(node) = node {
        let tuple = tuple.copy(alloc)?;
        all.push(Entry { tuple, node })?;
    }
    Ok(())
}

/// Adds a tuple where the rule keeps it, given its nodes in the two sets.
fn add_kept<G: Gates>(
    alloc: Global,
    gates: &mut G,
    rule: Rule,
    tuple: &Keyed,
    nodes: (Option<Node>, Option<Node>),
    all: &mut Vec<Entry>,
) -> Result<(), AllocError>
    requires first_belongs { ForSome nodes.0 (λ n. G.belongs gates.old n) }
    requires second_belongs { ForSome nodes.1 (λ n. G.belongs gates.old n) }
    ensures keeps { Keeps G.belongs G.node_value gates.old gates.new }
    ensures added { OnOk result (IsAdded G.belongs G.node_value gates.new all.old.items
        all.new.items tuple.now
        (λ x. combine rule (truth_of (G.node_value gates.old x) nodes.0)
        (truth_of (G.node_value gates.old x) nodes.1))) }
{
    let node = combined(gates, rule, nodes.0, nodes.1)?;
    add_some(alloc, tuple, node, all)?;
    Ok(())
}

/// Which list goes on with the lower tuple, where they go on at these places; a list that is at its
/// end counts as above all tuples.
fn heads_at(a: &[Entry], i: usize, b: &[Entry], j: usize) -> Ordering
    requires columns { (k : ℕ) × All (λ e. length e.tuple ≡ k) a.now
        × All (λ e. length e.tuple ≡ k) b.now }
    requires first { i ≤ length a.now }
    requires second { j ≤ length b.now }
    ensures { result ≡ heads (tuples_of (drop i a.now)) (tuples_of (drop j b.now)) }
{
    if i == a.len() {
        if j == b.len() {
            Ordering::Equal
        } else {
            Ordering::Greater
        }
    } else if j == b.len() {
        Ordering::Less
    } else {
        a[i].tuple.compare(&b[j].tuple)
    }
}

/// The tuples of two sets that the rule keeps.
fn merge<G: Gates>(
    alloc: Global,
    gates: &mut G,
    arity: u32,
    rule: Rule,
    a: &[Entry],
    b: &[Entry],
) -> Result<Matrix, AllocError>
    requires a_matrix { IsMatrix (record { arity = arity; entries = a.now }) }
    requires b_matrix { IsMatrix (record { arity = arity; entries = b.now }) }
    requires a_belongs { AllBelong (G.belongs gates.old) a.now }
    requires b_belongs { AllBelong (G.belongs gates.old) b.now }
    ensures keeps { Keeps G.belongs G.node_value gates.old gates.new }
    ensures belongs { IfOk result (λ m. AllBelong (G.belongs gates.new) m.entries) }
    ensures arity { IfOk result (λ m. m.arity ≡ arity) }
    ensures truth { IfOk result (λ m. (x : ℕ → Bool) (t : List ℕ) →
        truth (G.node_value gates.new x) m t
        ≡ combine rule (has (G.node_value gates.old x) a.now t)
        (has (G.node_value gates.old x) b.now t)) }
{
    let mut all = Vec::new(alloc);
    let mut i = 0;
    let mut j = 0;
    while i < a.len() || j < b.len() {
        match heads_at(a, i, b, j) {
            Ordering::Less => {
                let entry = &a[i];
                let nodes = (Some(entry.node), None);
                add_kept(alloc, gates, rule, &entry.tuple, nodes, &mut all)?;
                i += 1;
            }
            Ordering::Greater => {
                let entry = &b[j];
                let nodes = (None, Some(entry.node));
                add_kept(alloc, gates, rule, &entry.tuple, nodes, &mut all)?;
                j += 1;
            }
            Ordering::Equal => {
                let entry = &a[i];
                let other = &b[j];
                let nodes = (Some(entry.node), Some(other.node));
                add_kept(alloc, gates, rule, &entry.tuple, nodes, &mut all)?;
                i += 1;
                j += 1;
            }
        }
    }
    Ok(Matrix::sorted(arity, all))
}

/// The tuples that are in at least one of two sets.
pub fn union<G: Gates>(
    alloc: Global,
    gates: &mut G,
    a: &Matrix,
    b: &Matrix,
) -> Result<Matrix, AllocError>
    requires a_belongs { AllBelong (G.belongs gates.old) a.now.entries }
    requires b_belongs { AllBelong (G.belongs gates.old) b.now.entries }
    requires arities { a.now.arity ≡ b.now.arity }
    ensures keeps { Keeps G.belongs G.node_value gates.old gates.new }
    ensures belongs { IfOk result (λ m. AllBelong (G.belongs gates.new) m.entries) }
    ensures arity { IfOk result (λ m. m.arity ≡ a.now.arity) }
    ensures truth { IfOk result (λ m. (x : ℕ → Bool) (t : List ℕ) →
        truth (G.node_value gates.new x) m t
        ≡ (truth (G.node_value gates.old x) a.now t || truth (G.node_value gates.old x) b.now t)) }
{
    merge(
        alloc,
        gates,
        a.arity(),
        Rule::Union,
        a.entries(),
        b.entries(),
    )
}

/// The tuples that are in both sets.
pub fn intersection<G: Gates>(
    alloc: Global,
    gates: &mut G,
    a: &Matrix,
    b: &Matrix,
) -> Result<Matrix, AllocError>
    requires a_belongs { AllBelong (G.belongs gates.old) a.now.entries }
    requires b_belongs { AllBelong (G.belongs gates.old) b.now.entries }
    requires arities { a.now.arity ≡ b.now.arity }
    ensures keeps { Keeps G.belongs G.node_value gates.old gates.new }
    ensures belongs { IfOk result (λ m. AllBelong (G.belongs gates.new) m.entries) }
    ensures arity { IfOk result (λ m. m.arity ≡ a.now.arity) }
    ensures truth { IfOk result (λ m. (x : ℕ → Bool) (t : List ℕ) →
        truth (G.node_value gates.new x) m t
        ≡ (truth (G.node_value gates.old x) a.now t && truth (G.node_value gates.old x) b.now t)) }
{
    merge(
        alloc,
        gates,
        a.arity(),
        Rule::Intersection,
        a.entries(),
        b.entries(),
    )
}

/// The tuples that are in the first set and not in the second.
pub fn difference<G: Gates>(
    alloc: Global,
    gates: &mut G,
    a: &Matrix,
    b: &Matrix,
) -> Result<Matrix, AllocError>
    requires a_belongs { AllBelong (G.belongs gates.old) a.now.entries }
    requires b_belongs { AllBelong (G.belongs gates.old) b.now.entries }
    requires arities { a.now.arity ≡ b.now.arity }
    ensures keeps { Keeps G.belongs G.node_value gates.old gates.new }
    ensures belongs { IfOk result (λ m. AllBelong (G.belongs gates.new) m.entries) }
    ensures arity { IfOk result (λ m. m.arity ≡ a.now.arity) }
    ensures truth { IfOk result (λ m. (x : ℕ → Bool) (t : List ℕ) →
        truth (G.node_value gates.new x) m t
        ≡ (truth (G.node_value gates.old x) a.now t
        && not (truth (G.node_value gates.old x) b.now t))) }
{
    merge(
        alloc,
        gates,
        a.arity(),
        Rule::Difference,
        a.entries(),
        b.entries(),
    )
}

/// The tuples that are in just one of two sets.
pub(crate) fn exclusive<G: Gates>(
    alloc: Global,
    gates: &mut G,
    a: &Matrix,
    b: &Matrix,
) -> Result<Matrix, AllocError>
    requires a_belongs { AllBelong (G.belongs gates.old) a.now.entries }
    requires b_belongs { AllBelong (G.belongs gates.old) b.now.entries }
    requires arities { a.now.arity ≡ b.now.arity }
    ensures keeps { Keeps G.belongs G.node_value gates.old gates.new }
    ensures belongs { IfOk result (λ m. AllBelong (G.belongs gates.new) m.entries) }
    ensures truth { IfOk result (λ m. (x : ℕ → Bool) (t : List ℕ) →
        truth (G.node_value gates.new x) m t
        ≡ xor (truth (G.node_value gates.old x) a.now t)
        (truth (G.node_value gates.old x) b.now t)) }
{
    merge(
        alloc,
        gates,
        a.arity(),
        Rule::Exclusive,
        a.entries(),
        b.entries(),
    )
}
