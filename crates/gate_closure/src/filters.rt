//! Override and restriction, by whether the first or last atom of a tuple is in a set.

ghost use Rattle.std.specs.Prelude.{◌≡◌, ◌≤◌, ◌<◌, ◌+◌, ◌↔◌, ◌&&◌, ◌∷◌, [], not, ℕ, Bool, true, List, All, length, IfOk, OnOk, Option};
ghost use Rattle.std.specs.Option.{ForSome};
ghost use Rattle.gate_trait.specs.Built.{Keeps, Computes};
ghost use Rattle.gate_matrix.specs.Matrices.{AllBelong, truth, truth_of};
ghost use Rattle.gate_matrix.specs.Merged.{OptionComputes};
ghost use Rattle.gate_closure.specs.Filters.{atom_at, counts, IsFirst, IsOverridden, IsLeftRestricted, IsRightRestricted};

use core_tuples::{Keyed, Tuple};
use gate_matrix::{Entry, Matrix, add_some, gathered, union};
use gate_trait::{Gates, Node};
use std::alloc::{AllocError, Global};

/// Which atom of a tuple is asked.
#[derive(Clone, Copy, Debug, PartialEq, Eq)]
pub enum Side {
    /// The first.
    First,
    /// The last.
    Last,
}

/// Which tuples are kept.
#[derive(Clone, Copy, Debug, PartialEq, Eq)]
pub enum Kept {
    /// Those whose atom is in the set.
    Inside,
    /// Those whose atom isn't.
    Outside,
}

/// The number of a tuple that is asked.
fn number_at(numbers: &[u32], side: Side) -> u32
    requires { 0 < length numbers.now }
    ensures { result ≡ atom_at side numbers.now }
{
    match side {
        Side::First => numbers[0],
        Side::Last => numbers[numbers.len() - 1],
    }
}

/// The tuple of one number.
fn single(alloc: Global, number: u32) -> Result<Tuple, AllocError>
    ensures { IfOk result (λ t. t ≡ number ∷ []) }
{
    let mut tuple = Tuple::new(alloc);
    tuple.push(number)?;
    Ok(tuple)
}

/// Whether the node is true and the tuple is kept, where `other` is its atom's node in the set.
fn asked<G: Gates>(
    gates: &mut G,
    kept: Kept,
    node: Node,
    other: Option<Node>,
) -> Result<Option<Node>, AllocError>
    requires node_belongs { G.belongs gates.old node }
    requires other_belongs { ForSome other (λ n. G.belongs gates.old n) }
    ensures keeps { Keeps G.belongs G.node_value gates.old gates.new }
    ensures ok { IfOk result (λ o. OptionComputes G.belongs G.node_value gates.new o
        (λ x. G.node_value gates.old x node && counts kept
        (truth_of (G.node_value gates.old x) other))) }
{
    match (kept, other) {
        (Kept::Inside, None) => Ok(None),
        (Kept::Outside, None) => Ok(Some(node)),
        (Kept::Inside, Some(other)) => Ok(Some(gates.and(node, other)?)),
        (Kept::Outside, Some(other)) => {
            let absent = gates.not(other);
            Ok(Some(gates.and(node, absent)?))
        }
    }
}

/// The tuples whose atom at the side is, or isn't, in the set.
fn filtered<G: Gates>(
    alloc: Global,
    gates: &mut G,
    side: Side,
    kept: Kept,
    a: &Matrix,
    s: &Matrix,
) -> Result<Matrix, AllocError>
    requires a_belongs { AllBelong (G.belongs gates.old) a.now.entries }
    requires s_belongs { AllBelong (G.belongs gates.old) s.now.entries }
    ensures keeps { Keeps G.belongs G.node_value gates.old gates.new }
    ensures belongs { IfOk result (λ m. AllBelong (G.belongs gates.new) m.entries) }
    ensures arity { IfOk result (λ m. m.arity ≡ a.now.arity) }
    ensures truth { IfOk result (λ m. (x : ℕ → Bool) (t : List ℕ) →
        truth (G.node_value gates.new x) m t
        ≡ (truth (G.node_value gates.old x) a.now t
        && counts kept (truth (G.node_value gates.old x) s.now (atom_at side t ∷ [])))) }
{
    let mut all = Vec::new(alloc);
    let entries = a.entries();
    for entry in entries {
        let atom = single(alloc, number_at(entry.tuple.numbers(), side))?;
        let node = asked(gates, kept, entry.node, s.node(&atom))?;
        add_some(alloc, &entry.tuple, node, &mut all)?;
    }
    gathered(alloc, gates, a.arity(), all)
}

/// The first atoms of the tuples of a set.
fn firsts<G: Gates>(alloc: Global, gates: &mut G, a: &Matrix) -> Result<Matrix, AllocError>
    requires { AllBelong (G.belongs gates.old) a.now.entries }
    ensures keeps { Keeps G.belongs G.node_value gates.old gates.new }
    ensures belongs { IfOk result (λ m. AllBelong (G.belongs gates.new) m.entries) }
    ensures arity { IfOk result (λ m. m.arity ≡ 1) }
    ensures truth { IfOk result (λ m. (x : ℕ → Bool) (t : List ℕ) →
        (truth (G.node_value gates.new x) m t ≡ true)
        ↔ IsFirst (G.node_value gates.old x) a.now t) }
{
    let mut all = Vec::new(alloc);
    let entries = a.entries();
    for entry in entries {
        let tuple = single(alloc, entry.tuple.numbers()[0])?;
        all.push(Entry {
            tuple: Keyed::new(tuple),
            node: entry.node,
        })?;
    }
    gathered(alloc, gates, 1, all)
}

/// The tuples of the second set, and those of the first whose first atom begins no tuple of the
/// second.
pub fn override_by<G: Gates>(
    alloc: Global,
    gates: &mut G,
    a: &Matrix,
    b: &Matrix,
) -> Result<Matrix, AllocError>
    requires a_belongs { AllBelong (G.belongs gates.old) a.now.entries }
    requires b_belongs { AllBelong (G.belongs gates.old) b.now.entries }
    requires columns { a.now.arity ≡ b.now.arity }
    ensures keeps { Keeps G.belongs G.node_value gates.old gates.new }
    ensures belongs { IfOk result (λ m. AllBelong (G.belongs gates.new) m.entries) }
    ensures arity { IfOk result (λ m. m.arity ≡ a.now.arity) }
    ensures truth { IfOk result (λ m. (x : ℕ → Bool) (t : List ℕ) →
        (truth (G.node_value gates.new x) m t ≡ true)
        ↔ IsOverridden (G.node_value gates.old x) a.now b.now t) }
{
    // for the proof: this call's clause says that it is a matrix
    let _ = a.arity();
    let over = firsts(alloc, gates, b)?;
    let rest = filtered(alloc, gates, Side::First, Kept::Outside, a, &over)?;
    union(alloc, gates, &rest, b)
}

/// The tuples of the second set whose first atom is in the first.
pub fn left_restrict<G: Gates>(
    alloc: Global,
    gates: &mut G,
    a: &Matrix,
    b: &Matrix,
) -> Result<Matrix, AllocError>
    requires a_belongs { AllBelong (G.belongs gates.old) a.now.entries }
    requires b_belongs { AllBelong (G.belongs gates.old) b.now.entries }
    requires columns { a.now.arity ≡ 1 }
    ensures keeps { Keeps G.belongs G.node_value gates.old gates.new }
    ensures belongs { IfOk result (λ m. AllBelong (G.belongs gates.new) m.entries) }
    ensures arity { IfOk result (λ m. m.arity ≡ b.now.arity) }
    ensures truth { IfOk result (λ m. (x : ℕ → Bool) (t : List ℕ) →
        (truth (G.node_value gates.new x) m t ≡ true)
        ↔ IsLeftRestricted (G.node_value gates.old x) a.now b.now t) }
{
    // for the proof: this call's clause says that it is a matrix
    let _ = b.arity();
    filtered(alloc, gates, Side::First, Kept::Inside, b, a)
}

/// The tuples of the first set whose last atom is in the second.
pub fn right_restrict<G: Gates>(
    alloc: Global,
    gates: &mut G,
    a: &Matrix,
    b: &Matrix,
) -> Result<Matrix, AllocError>
    requires a_belongs { AllBelong (G.belongs gates.old) a.now.entries }
    requires b_belongs { AllBelong (G.belongs gates.old) b.now.entries }
    requires columns { b.now.arity ≡ 1 }
    ensures keeps { Keeps G.belongs G.node_value gates.old gates.new }
    ensures belongs { IfOk result (λ m. AllBelong (G.belongs gates.new) m.entries) }
    ensures arity { IfOk result (λ m. m.arity ≡ a.now.arity) }
    ensures truth { IfOk result (λ m. (x : ℕ → Bool) (t : List ℕ) →
        (truth (G.node_value gates.new x) m t ≡ true)
        ↔ IsRightRestricted (G.node_value gates.old x) a.now b.now t) }
{
    // for the proof: this call's clause says that it is a matrix
    let _ = a.arity();
    filtered(alloc, gates, Side::Last, Kept::Inside, a, b)
}
