//! Operators on two relations, where the operands fit.

ghost use Rattle.std.specs.Prelude.{◌≡◌, ◌≤◌, ◌+◌, ◌-◌, ℕ, Bool, IfOk};
ghost use Rattle.gate_trait.specs.Built.{Keeps};
ghost use Rattle.core_tree.specs.declared.operators.RelationOp.TheVariants.{Union, Difference, Intersection, Join, Override, LeftRestrict, RightRestrict};
ghost use Rattle.core_meaning.specs.Operators.{combined_tuples, product_tuples};
ghost use Rattle.gate_matrix.specs.Matrices.{AllBelong};
ghost use Rattle.gate_operators.specs.Sets.{MeansSet, set_of, FitTogether, columns_of};

use core_tree::RelationOp;
use gate_closure::{left_restrict, override_by, right_restrict};
use gate_matrix::Matrix;
use gate_trait::Gates;
use std::alloc::{AllocError, Global};

/// The tuples that are in at least one of two sets.
fn united<G: Gates>(
    alloc: Global,
    gates: &mut G,
    a: &Matrix,
    b: &Matrix,
) -> Result<Matrix, AllocError>
    requires a_belongs { AllBelong (G.belongs gates.old) a.now.entries }
    requires b_belongs { AllBelong (G.belongs gates.old) b.now.entries }
    requires fit { FitTogether Union a.now.arity b.now.arity }
    ensures keeps { Keeps G.belongs G.node_value gates.old gates.new }
    ensures belongs { IfOk result (λ m. AllBelong (G.belongs gates.new) m.entries) }
    ensures columns { IfOk result (λ m. m.arity ≡ columns_of Union a.now.arity b.now.arity) }
    ensures means { IfOk result (λ m. (x : ℕ → Bool) → MeansSet (G.node_value gates.new x) m
        (combined_tuples Union (set_of (G.node_value gates.old x) a.now)
        (set_of (G.node_value gates.old x) b.now))) }
{
    let made = gate_matrix::union(alloc, gates, a, b)?;
    Ok(made)
}

/// The tuples that are in the first set and not in the second.
fn subtracted<G: Gates>(
    alloc: Global,
    gates: &mut G,
    a: &Matrix,
    b: &Matrix,
) -> Result<Matrix, AllocError>
    requires a_belongs { AllBelong (G.belongs gates.old) a.now.entries }
    requires b_belongs { AllBelong (G.belongs gates.old) b.now.entries }
    requires fit { FitTogether Difference a.now.arity b.now.arity }
    ensures keeps { Keeps G.belongs G.node_value gates.old gates.new }
    ensures belongs { IfOk result (λ m. AllBelong (G.belongs gates.new) m.entries) }
    ensures columns { IfOk result (λ m. m.arity ≡ columns_of Difference a.now.arity b.now.arity) }
    ensures means { IfOk result (λ m. (x : ℕ → Bool) → MeansSet (G.node_value gates.new x) m
        (combined_tuples Difference (set_of (G.node_value gates.old x) a.now)
        (set_of (G.node_value gates.old x) b.now))) }
{
    let made = gate_matrix::difference(alloc, gates, a, b)?;
    Ok(made)
}

/// The tuples that are in both sets.
fn met<G: Gates>(alloc: Global, gates: &mut G, a: &Matrix, b: &Matrix) -> Result<Matrix, AllocError>
    requires a_belongs { AllBelong (G.belongs gates.old) a.now.entries }
    requires b_belongs { AllBelong (G.belongs gates.old) b.now.entries }
    requires fit { FitTogether Intersection a.now.arity b.now.arity }
    ensures keeps { Keeps G.belongs G.node_value gates.old gates.new }
    ensures belongs { IfOk result (λ m. AllBelong (G.belongs gates.new) m.entries) }
    ensures columns { IfOk result (λ m. m.arity ≡ columns_of Intersection a.now.arity b.now.arity) }
    ensures means { IfOk result (λ m. (x : ℕ → Bool) → MeansSet (G.node_value gates.new x) m
        (combined_tuples Intersection (set_of (G.node_value gates.old x) a.now)
        (set_of (G.node_value gates.old x) b.now))) }
{
    let made = gate_matrix::intersection(alloc, gates, a, b)?;
    Ok(made)
}

/// The tuples `s` and then `u`, where `s` and then some atom is in the first set, and that atom and
/// then `u` in the second.
fn joined<G: Gates>(
    alloc: Global,
    gates: &mut G,
    a: &Matrix,
    b: &Matrix,
) -> Result<Matrix, AllocError>
    requires a_belongs { AllBelong (G.belongs gates.old) a.now.entries }
    requires b_belongs { AllBelong (G.belongs gates.old) b.now.entries }
    requires fit { FitTogether Join a.now.arity b.now.arity }
    ensures keeps { Keeps G.belongs G.node_value gates.old gates.new }
    ensures belongs { IfOk result (λ m. AllBelong (G.belongs gates.new) m.entries) }
    ensures columns { IfOk result (λ m. m.arity ≡ columns_of Join a.now.arity b.now.arity) }
    ensures means { IfOk result (λ m. (x : ℕ → Bool) → MeansSet (G.node_value gates.new x) m
        (combined_tuples Join (set_of (G.node_value gates.old x) a.now)
        (set_of (G.node_value gates.old x) b.now))) }
{
    let made = gate_matrix::join(alloc, gates, a, b)?;
    Ok(made)
}

/// The tuples of the second set, and those of the first that begin with no atom that begins a tuple
/// of the second.
fn overridden<G: Gates>(
    alloc: Global,
    gates: &mut G,
    a: &Matrix,
    b: &Matrix,
) -> Result<Matrix, AllocError>
    requires a_belongs { AllBelong (G.belongs gates.old) a.now.entries }
    requires b_belongs { AllBelong (G.belongs gates.old) b.now.entries }
    requires fit { FitTogether Override a.now.arity b.now.arity }
    ensures keeps { Keeps G.belongs G.node_value gates.old gates.new }
    ensures belongs { IfOk result (λ m. AllBelong (G.belongs gates.new) m.entries) }
    ensures columns { IfOk result (λ m. m.arity ≡ columns_of Override a.now.arity b.now.arity) }
    ensures means { IfOk result (λ m. (x : ℕ → Bool) → MeansSet (G.node_value gates.new x) m
        (combined_tuples Override (set_of (G.node_value gates.old x) a.now)
        (set_of (G.node_value gates.old x) b.now))) }
{
    let made = override_by(alloc, gates, a, b)?;
    Ok(made)
}

/// The tuples of the second set whose first atom is in the first.
fn left_restricted<G: Gates>(
    alloc: Global,
    gates: &mut G,
    a: &Matrix,
    b: &Matrix,
) -> Result<Matrix, AllocError>
    requires a_belongs { AllBelong (G.belongs gates.old) a.now.entries }
    requires b_belongs { AllBelong (G.belongs gates.old) b.now.entries }
    requires fit { FitTogether LeftRestrict a.now.arity b.now.arity }
    ensures keeps { Keeps G.belongs G.node_value gates.old gates.new }
    ensures belongs { IfOk result (λ m. AllBelong (G.belongs gates.new) m.entries) }
    ensures columns { IfOk result (λ m. m.arity ≡ columns_of LeftRestrict a.now.arity b.now.arity) }
    ensures means { IfOk result (λ m. (x : ℕ → Bool) → MeansSet (G.node_value gates.new x) m
        (combined_tuples LeftRestrict (set_of (G.node_value gates.old x) a.now)
        (set_of (G.node_value gates.old x) b.now))) }
{
    let made = left_restrict(alloc, gates, a, b)?;
    Ok(made)
}

/// The tuples of the first set whose last atom is in the second.
fn right_restricted<G: Gates>(
    alloc: Global,
    gates: &mut G,
    a: &Matrix,
    b: &Matrix,
) -> Result<Matrix, AllocError>
    requires a_belongs { AllBelong (G.belongs gates.old) a.now.entries }
    requires b_belongs { AllBelong (G.belongs gates.old) b.now.entries }
    requires fit { FitTogether RightRestrict a.now.arity b.now.arity }
    ensures keeps { Keeps G.belongs G.node_value gates.old gates.new }
    ensures belongs { IfOk result (λ m. AllBelong (G.belongs gates.new) m.entries) }
    ensures columns { IfOk result (λ m. m.arity ≡ columns_of RightRestrict a.now.arity
        b.now.arity) }
    ensures means { IfOk result (λ m. (x : ℕ → Bool) → MeansSet (G.node_value gates.new x) m
        (combined_tuples RightRestrict (set_of (G.node_value gates.old x) a.now)
        (set_of (G.node_value gates.old x) b.now))) }
{
    let made = right_restrict(alloc, gates, a, b)?;
    Ok(made)
}

/// What an operator gives of two sets.
pub fn combine<G: Gates>(
    alloc: Global,
    gates: &mut G,
    op: RelationOp,
    a: &Matrix,
    b: &Matrix,
) -> Result<Matrix, AllocError>
    requires a_belongs { AllBelong (G.belongs gates.old) a.now.entries }
    requires b_belongs { AllBelong (G.belongs gates.old) b.now.entries }
    requires fit { FitTogether op a.now.arity b.now.arity }
    ensures keeps { Keeps G.belongs G.node_value gates.old gates.new }
    ensures belongs { IfOk result (λ m. AllBelong (G.belongs gates.new) m.entries) }
    ensures columns { IfOk result (λ m. m.arity ≡ columns_of op a.now.arity b.now.arity) }
    ensures means { IfOk result (λ m. (x : ℕ → Bool) → MeansSet (G.node_value gates.new x) m
        (combined_tuples op (set_of (G.node_value gates.old x) a.now)
        (set_of (G.node_value gates.old x) b.now))) }
{
    match op {
        RelationOp::Union => united(alloc, gates, a, b),
        RelationOp::Difference => subtracted(alloc, gates, a, b),
        RelationOp::Intersection => met(alloc, gates, a, b),
        RelationOp::Join => joined(alloc, gates, a, b),
        RelationOp::Override => overridden(alloc, gates, a, b),
        RelationOp::LeftRestrict => left_restricted(alloc, gates, a, b),
        RelationOp::RightRestrict => right_restricted(alloc, gates, a, b),
    }
}

/// The tuples of the first set, each followed by each tuple of the second.
pub fn multiplied<G: Gates>(
    alloc: Global,
    gates: &mut G,
    a: &Matrix,
    b: &Matrix,
) -> Result<Matrix, AllocError>
    requires a_belongs { AllBelong (G.belongs gates.old) a.now.entries }
    requires b_belongs { AllBelong (G.belongs gates.old) b.now.entries }
    requires few { a.now.arity + b.now.arity ≤ 9 }
    ensures keeps { Keeps G.belongs G.node_value gates.old gates.new }
    ensures belongs { IfOk result (λ m. AllBelong (G.belongs gates.new) m.entries) }
    ensures columns { IfOk result (λ m. m.arity ≡ a.now.arity + b.now.arity) }
    ensures means { IfOk result (λ m. (x : ℕ → Bool) → MeansSet (G.node_value gates.new x) m
        (product_tuples (set_of (G.node_value gates.old x) a.now)
        (set_of (G.node_value gates.old x) b.now))) }
{
    let made = gate_matrix::product(alloc, gates, a, b)?;
    Ok(made)
}
