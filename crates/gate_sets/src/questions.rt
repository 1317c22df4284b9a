//! Tests of one or two sets, with the error of memory where the columns don't fit.

ghost use Rattle.std.specs.Prelude.{◌≡◌, ◌↔◌, ℕ, Bool, true, IfOk};
ghost use Rattle.gate_trait.specs.Built.{Keeps};
ghost use Rattle.core_meaning.specs.Operators.{IsInside, IsLone};
ghost use Rattle.gate_matrix.specs.Matrices.{AllBelong};
ghost use Rattle.gate_operators.specs.Sets.{set_of};
ghost use Rattle.gate_sets.specs.Sets.{IsAnswered};

use gate_matrix::Matrix;
use gate_trait::{Gates, Node};
use std::alloc::{AllocError, Global};

/// A test of one or two sets. That of one set is given it twice.
#[derive(Clone, Copy, Debug, PartialEq, Eq)]
pub enum Question {
    Inside,
    Some,
    Lone,
}

/// Whether the first set lies in the second. Its error is want of memory, or that the sets differ in
/// their number of columns.
fn inside<G: Gates>(
    alloc: Global,
    gates: &mut G,
    a: &Matrix,
    b: &Matrix,
) -> Result<Node, AllocError>
    requires a_belongs { AllBelong (G.belongs gates.old) a.now.entries }
    requires b_belongs { AllBelong (G.belongs gates.old) b.now.entries }
    ensures keeps { Keeps G.belongs G.node_value gates.old gates.new }
    ensures belongs { IfOk result (λ n. G.belongs gates.new n) }
    ensures means { IfOk result (λ n. (x : ℕ → Bool) → (G.node_value gates.new x n ≡ true)
        ↔ IsInside (set_of (G.node_value gates.old x) a.now)
        (set_of (G.node_value gates.old x) b.now)) }
{
    if a.arity() != b.arity() {
        return Err(AllocError);
    }
    gate_matrix::inside(alloc, gates, a, b)
}

/// Whether the set has at most one tuple.
fn at_most_one<G: Gates>(alloc: Global, gates: &mut G, a: &Matrix) -> Result<Node, AllocError>
    requires { AllBelong (G.belongs gates.old) a.now.entries }
    ensures keeps { Keeps G.belongs G.node_value gates.old gates.new }
    ensures belongs { IfOk result (λ n. G.belongs gates.new n) }
    ensures means { IfOk result (λ n. (x : ℕ → Bool) → (G.node_value gates.new x n ≡ true)
        ↔ IsLone (set_of (G.node_value gates.old x) a.now)) }
{
    gate_matrix::lone(alloc, gates, a)
}

/// Whether two sets pass the test. Its error is want of memory, or that the columns don't fit the
/// test.
pub fn ask<G: Gates>(
    alloc: Global,
    gates: &mut G,
    question: Question,
    a: &Matrix,
    b: &Matrix,
) -> Result<Node, AllocError>
    requires a_belongs { AllBelong (G.belongs gates.old) a.now.entries }
    requires b_belongs { AllBelong (G.belongs gates.old) b.now.entries }
    ensures keeps { Keeps G.belongs G.node_value gates.old gates.new }
    ensures belongs { IfOk result (λ n. G.belongs gates.new n) }
    ensures means { IfOk result (λ n. (x : ℕ → Bool) → (G.node_value gates.new x n ≡ true)
        ↔ IsAnswered question (set_of (G.node_value gates.old x) a.now)
        (set_of (G.node_value gates.old x) b.now)) }
{
    match question {
        Question::Inside => inside(alloc, gates, a, b),
        Question::Some => gate_matrix::some(alloc, gates, a),
        Question::Lone => at_most_one(alloc, gates, a),
    }
}
