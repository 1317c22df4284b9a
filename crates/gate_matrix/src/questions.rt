//! Questions about sets: `in`, `=`, `some`, `lone` and `one`, each as one node.

ghost use Rattle.std.specs.Prelude.{◌≡◌, ◌↔◌, ◌&&◌, ◌||◌, ℕ, Bool, true, IfOk};
ghost use Rattle.std.specs.List.{list_any};
ghost use Rattle.gate_trait.specs.Built.{Keeps, Computes};
ghost use Rattle.gate_matrix.specs.Matrices.{AllBelong, truth};
ghost use Rattle.gate_matrix.specs.Questions.{HasSome, HasLone, HasOne, IsInside, IsEqual, BothCompute, more_than_one};

use crate::entry::Entry;
use crate::gather::any_of;
use crate::matrix::Matrix;
use crate::merge::{difference, exclusive};
use gate_trait::{Gates, Node};
use std::alloc::{AllocError, Global};

/// Whether some entry's node is true.
fn any_node<G: Gates>(gates: &mut G, entries: &[Entry]) -> Result<Node, AllocError>
    requires { AllBelong (G.belongs gates.old) entries.now }
    ensures keeps { Keeps G.belongs G.node_value gates.old gates.new }
    ensures ok { IfOk result (λ n. Computes G.belongs G.node_value gates.new n
        (λ x. list_any (λ e. G.node_value gates.old x e.node) entries.now)) }
{
    let any = any_of(gates, entries)?;
    match any {
        Some(node) => Ok(node),
        None => Ok(gates.constant(false)),
    }
}

/// Whether the set has a tuple.
pub fn some<G: Gates>(_alloc: Global, gates: &mut G, a: &Matrix) -> Result<Node, AllocError>
    requires { AllBelong (G.belongs gates.old) a.now.entries }
    ensures keeps { Keeps G.belongs G.node_value gates.old gates.new }
    ensures belongs { IfOk result (λ n. G.belongs gates.new n) }
    ensures truth { IfOk result (λ n. (x : ℕ → Bool) → (G.node_value gates.new x n ≡ true)
        ↔ HasSome (G.node_value gates.old x) a.now) }
{
    any_node(gates, a.entries())
}

/// Whether each tuple of the first set is in the second.
pub fn inside<G: Gates>(
    alloc: Global,
    gates: &mut G,
    a: &Matrix,
    b: &Matrix,
) -> Result<Node, AllocError>
    requires a_belongs { AllBelong (G.belongs gates.old) a.now.entries }
    requires b_belongs { AllBelong (G.belongs gates.old) b.now.entries }
    requires arities { a.now.arity ≡ b.now.arity }
    ensures keeps { Keeps G.belongs G.node_value gates.old gates.new }
    ensures belongs { IfOk result (λ n. G.belongs gates.new n) }
    ensures truth { IfOk result (λ n. (x : ℕ → Bool) → (G.node_value gates.new x n ≡ true)
        ↔ IsInside (G.node_value gates.old x) a.now b.now) }
{
    let rest = difference(alloc, gates, a, b)?;
    let outside = some(alloc, gates, &rest)?;
    Ok(gates.not(outside))
}

/// Whether the sets have the same tuples.
pub fn equal<G: Gates>(
    alloc: Global,
    gates: &mut G,
    a: &Matrix,
    b: &Matrix,
) -> Result<Node, AllocError>
    requires a_belongs { AllBelong (G.belongs gates.old) a.now.entries }
    requires b_belongs { AllBelong (G.belongs gates.old) b.now.entries }
    requires arities { a.now.arity ≡ b.now.arity }
    ensures keeps { Keeps G.belongs G.node_value gates.old gates.new }
    ensures belongs { IfOk result (λ n. G.belongs gates.new n) }
    ensures truth { IfOk result (λ n. (x : ℕ → Bool) → (G.node_value gates.new x n ≡ true)
        ↔ IsEqual (G.node_value gates.old x) a.now b.now) }
{
    let rest = exclusive(alloc, gates, a, b)?;
    let different = some(alloc, gates, &rest)?;
    Ok(gates.not(different))
}

/// Whether some entry's node is true, and whether the nodes of two are.
#[derive(Clone, Copy)]
struct Seen {
    one: Node,
    two: Node,
}

/// What is seen after one more node.
fn seen_more<G: Gates>(gates: &mut G, seen: Seen, node: Node) -> Result<Seen, AllocError>
    requires one { G.belongs gates.old seen.one }
    requires two { G.belongs gates.old seen.two }
    requires node { G.belongs gates.old node }
    ensures keeps { Keeps G.belongs G.node_value gates.old gates.new }
    ensures ok { IfOk result (λ s. BothCompute G.belongs G.node_value gates.new s.one s.two
        (λ x. G.node_value gates.old x seen.one || G.node_value gates.old x node)
        (λ x. G.node_value gates.old x seen.two || (G.node_value gates.old x seen.one
        && G.node_value gates.old x node))) }
{
    let again = gates.and(seen.one, node)?;
    let two = gates.or(seen.two, again)?;
    let one = gates.or(seen.one, node)?;
    Ok(Seen { one, two })
}

/// What is seen among the entries.
fn seen_of<G: Gates>(gates: &mut G, entries: &[Entry]) -> Result<Seen, AllocError>
    requires { AllBelong (G.belongs gates.old) entries.now }
    ensures keeps { Keeps G.belongs G.node_value gates.old gates.new }
    ensures ok { IfOk result (λ s. BothCompute G.belongs G.node_value gates.new s.one s.two
        (λ x. list_any (λ e. G.node_value gates.old x e.node) entries.now)
        (λ x. more_than_one (G.node_value gates.old x) entries.now)) }
{
    let mut seen = Seen {
        one: gates.constant(false),
        two: gates.constant(false),
    };
    for entry in entries {
        seen = seen_more(gates, seen, entry.node)?;
    }
    Ok(seen)
}

/// Whether the set has at most one tuple.
pub fn lone<G: Gates>(_alloc: Global, gates: &mut G, a: &Matrix) -> Result<Node, AllocError>
    requires { AllBelong (G.belongs gates.old) a.now.entries }
    ensures keeps { Keeps G.belongs G.node_value gates.old gates.new }
    ensures belongs { IfOk result (λ n. G.belongs gates.new n) }
    ensures truth { IfOk result (λ n. (x : ℕ → Bool) → (G.node_value gates.new x n ≡ true)
        ↔ HasLone (G.node_value gates.old x) a.now) }
{
    let seen = seen_of(gates, a.entries())?;
    Ok(gates.not(seen.two))
}

/// Whether the set has just one tuple.
pub fn one<G: Gates>(_alloc: Global, gates: &mut G, a: &Matrix) -> Result<Node, AllocError>
    requires { AllBelong (G.belongs gates.old) a.now.entries }
    ensures keeps { Keeps G.belongs G.node_value gates.old gates.new }
    ensures belongs { IfOk result (λ n. G.belongs gates.new n) }
    ensures truth { IfOk result (λ n. (x : ℕ → Bool) → (G.node_value gates.new x n ≡ true)
        ↔ HasOne (G.node_value gates.old x) a.now) }
{
    let seen = seen_of(gates, a.entries())?;
    let lone = gates.not(seen.two);
    gates.and(seen.one, lone)
}
