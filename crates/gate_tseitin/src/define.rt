//! The clauses that define a gate, in both directions.

ghost use Rattle.std.specs.Prelude.{◌≡◌, ◌++◌, ◌∷◌, [], map, ◌<◌, ◌≤◌, ◌^◌, ◌&&◌, ◌||◌, if◌then◌else◌, not, slice_get, Some, ℕ, Bool, List, All, length, OnOk, IfOk, slice_index};
ghost use Rattle.sat_dimacs.specs.Literal.{IsLiteral, IsWithin, literal_value, clause_value};
ghost use Rattle.gate_trait.specs.NodeWords.{number_of, is_negated};
ghost use Rattle.gate_trait.specs.Circuit.{value_among, IsAbove};
ghost use Rattle.gate_trait.specs.Built.{xor};
ghost use Rattle.gate_trait.specs.declared.gate.Gate.{Gate as CircuitGate};
ghost use Rattle.gate_tseitin.specs.Named.{satisfied, named_values, any_node, alike, defined_where, all_defined, IsNamed, literal_of};
ghost use Rattle.gate_tseitin.specs.Shown.{IsShown, AreFitting, all_nodes, defined_over};

use crate::leaves::leaves_of;
use crate::names::Names;
use crate::reach::is_marked;
use gate_store::CircuitStore;
use gate_trait::{Gate, Node};
use sat_dimacs::{Clause, Cnf};
use std::alloc::{AllocError, Global};

/// The literal of a node.
fn literal(names: &Names, node: Node) -> i64
    requires there { number_of node < length names.now.list.items }
    ensures literal { IsLiteral result }
    ensures is { result ≡ literal_of names.now.list.items node }
    ensures value { (v : ℕ → Bool) → literal_value v result
        ≡ value_among (named_values v names.now.list.items) node }
{
    let name = names.list[node.number() as usize] as i64;
    if node.negated() { -name } else { name }
}

/// The clause that some node is true.
fn clause_of(alloc: Global, names: &Names, nodes: &[Node], most: u64) -> Result<Clause, AllocError>
    requires room { names.now.count ≤ most }
    requires there { All (λ n. number_of n < length names.now.list.items) nodes.now }
    ensures is { IfOk result (λ c. c ≡ map (literal_of names.now.list.items) nodes.now) }
    ensures within { IfOk result (λ c. IsWithin most c) }
    ensures value { IfOk result (λ c. (v : ℕ → Bool) →
        clause_value v c ≡ any_node (named_values v names.now.list.items) nodes.now) }
{
    let mut clause = Clause::new(alloc);
    for node in nodes {
        clause.push(literal(names, *node))?;
    }
    Ok(clause)
}

/// Adds the clause that some node is true.
pub fn add_clause(
    alloc: Global,
    cnf: &mut Cnf,
    names: &Names,
    nodes: &[Node],
) -> Result<(), AllocError>
    requires room { names.now.count ≤ cnf.old.variables }
    requires there { All (λ n. number_of n < length names.now.list.items) nodes.now }
    ensures variables { OnOk result (cnf.new.variables ≡ cnf.old.variables) }
    ensures is { OnOk result (cnf.new.clauses ≡ cnf.old.clauses
        ++ map (literal_of names.now.list.items) nodes.now ∷ []) }
    ensures value { OnOk result ((v : ℕ → Bool) → satisfied v cnf.new.clauses
        ≡ (satisfied v cnf.old.clauses && any_node (named_values v names.now.list.items)
        nodes.now)) }
{
    let clause = clause_of(alloc, names, nodes, cnf.variables)?;
    cnf.clauses.push(clause)
}

/// Adds the clauses that say that the output is true where all nodes are: one of two literals for each node, and a long one.
fn define_and(
    alloc: Global,
    cnf: &mut Cnf,
    names: &Names,
    output: Node,
    nodes: &[Node],
) -> Result<(), AllocError>
    requires room { names.now.count ≤ cnf.old.variables }
    requires output_there { number_of output < length names.now.list.items }
    requires there { All (λ n. number_of n < length names.now.list.items) nodes.now }
    ensures variables { OnOk result (cnf.new.variables ≡ cnf.old.variables) }
    ensures value { OnOk result ((v : ℕ → Bool) → satisfied v cnf.new.clauses
        ≡ (satisfied v cnf.old.clauses
        && alike (value_among (named_values v names.now.list.items) output)
        (all_nodes (named_values v names.now.list.items) nodes.now))) }
{
    let mut long = Vec::new(alloc);
    long.push(output)?;
    for node in nodes {
        add_clause(alloc, cnf, names, &[output.opposite(), *node])?;
        long.push(node.opposite())?;
    }
    add_clause(alloc, cnf, names, &long)?;
    Ok(())
}

/// Adds the clauses that say that the output is true where one of two nodes is.
fn define_or(
    alloc: Global,
    cnf: &mut Cnf,
    names: &Names,
    output: Node,
    a: Node,
    b: Node,
) -> Result<(), AllocError>
    requires room { names.now.count ≤ cnf.old.variables }
    requires output_there { number_of output < length names.now.list.items }
    requires a_there { number_of a < length names.now.list.items }
    requires b_there { number_of b < length names.now.list.items }
    ensures variables { OnOk result (cnf.new.variables ≡ cnf.old.variables) }
    ensures value { OnOk result ((v : ℕ → Bool) → satisfied v cnf.new.clauses
        ≡ (satisfied v cnf.old.clauses
        && alike (value_among (named_values v names.now.list.items) output)
        ((value_among (named_values v names.now.list.items) a)
        || (value_among (named_values v names.now.list.items) b)))) }
{
    add_clause(alloc, cnf, names, &[output, a.opposite()])?;
    add_clause(alloc, cnf, names, &[output, b.opposite()])?;
    add_clause(alloc, cnf, names, &[output.opposite(), a, b])
}

/// Adds the clauses that say that the output is like the node where the condition is true.
fn define_where(
    alloc: Global,
    cnf: &mut Cnf,
    names: &Names,
    output: Node,
    condition: Node,
    node: Node,
) -> Result<(), AllocError>
    requires room { names.now.count ≤ cnf.old.variables }
    requires output_there { number_of output < length names.now.list.items }
    requires condition_there { number_of condition < length names.now.list.items }
    requires node_there { number_of node < length names.now.list.items }
    ensures variables { OnOk result (cnf.new.variables ≡ cnf.old.variables) }
    ensures value { OnOk result ((v : ℕ → Bool) → satisfied v cnf.new.clauses
        ≡ (satisfied v cnf.old.clauses
        && (not (value_among (named_values v names.now.list.items) condition)
        || alike (value_among (named_values v names.now.list.items) output)
        (value_among (named_values v names.now.list.items) node)))) }
{
    add_clause(
        alloc,
        cnf,
        names,
        &[condition.opposite(), node.opposite(), output],
    )?;
    add_clause(
        alloc,
        cnf,
        names,
        &[condition.opposite(), node, output.opposite()],
    )
}

/// Adds the clauses that say that the output is true where just one of two nodes is.
fn define_xor(
    alloc: Global,
    cnf: &mut Cnf,
    names: &Names,
    output: Node,
    a: Node,
    b: Node,
) -> Result<(), AllocError>
    requires room { names.now.count ≤ cnf.old.variables }
    requires output_there { number_of output < length names.now.list.items }
    requires a_there { number_of a < length names.now.list.items }
    requires b_there { number_of b < length names.now.list.items }
    ensures variables { OnOk result (cnf.new.variables ≡ cnf.old.variables) }
    ensures value { OnOk result ((v : ℕ → Bool) → satisfied v cnf.new.clauses
        ≡ (satisfied v cnf.old.clauses
        && alike (value_among (named_values v names.now.list.items) output)
        (xor (value_among (named_values v names.now.list.items) a)
        (value_among (named_values v names.now.list.items) b)))) }
{
    define_where(alloc, cnf, names, output, a, b.opposite())?;
    define_where(alloc, cnf, names, output, a.opposite(), b)
}

/// Adds the clauses that say that the output is the node that `c` chooses.
fn define_choose(
    alloc: Global,
    cnf: &mut Cnf,
    names: &Names,
    output: Node,
    c: Node,
    a: Node,
    b: Node,
) -> Result<(), AllocError>
    requires room { names.now.count ≤ cnf.old.variables }
    requires output_there { number_of output < length names.now.list.items }
    requires c_there { number_of c < length names.now.list.items }
    requires a_there { number_of a < length names.now.list.items }
    requires b_there { number_of b < length names.now.list.items }
    ensures variables { OnOk result (cnf.new.variables ≡ cnf.old.variables) }
    ensures value { OnOk result ((v : ℕ → Bool) → satisfied v cnf.new.clauses
        ≡ (satisfied v cnf.old.clauses
        && alike (value_among (named_values v names.now.list.items) output)
        (if value_among (named_values v names.now.list.items) c
        then value_among (named_values v names.now.list.items) a
        else value_among (named_values v names.now.list.items) b))) }
{
    define_where(alloc, cnf, names, output, c, a)?;
    define_where(alloc, cnf, names, output, c.opposite(), b)
}

/// Adds the clauses that say that the gate's variable has the value that the gate computes, an `and` from its leaves.
fn define(
    alloc: Global,
    cnf: &mut Cnf,
    names: &Names,
    number: u64,
    gate: Gate,
    leaves: &[Node],
) -> Result<(), AllocError>
    requires room { names.now.count ≤ cnf.old.variables }
    requires there { number < length names.now.list.items }
    requires few { length names.now.list.items < 2 ^ 63 }
    requires above { IsAbove number gate }
    requires leaves_there { All (λ n. number_of n < length names.now.list.items) leaves.now }
    requires named { IsNamed names.now.list.items number gate }
    ensures variables { OnOk result (cnf.new.variables ≡ cnf.old.variables) }
    ensures value { OnOk result ((v : ℕ → Bool) → satisfied v cnf.new.clauses
        ≡ (satisfied v cnf.old.clauses
        && defined_over (named_values v names.now.list.items) v leaves.now number gate)) }
{
    let output = Node::of_gate(number);
    match gate {
        Gate::Constant(true) => add_clause(alloc, cnf, names, &[output]),
        Gate::Constant(false) => add_clause(alloc, cnf, names, &[output.opposite()]),
        Gate::Input(_) => Ok(()),
        Gate::And(_, _) => define_and(alloc, cnf, names, output, leaves),
        Gate::Or(a, b) => define_or(alloc, cnf, names, output, a, b),
        Gate::Xor(a, b) => define_xor(alloc, cnf, names, output, a, b),
        Gate::Choose(c, a, b) => define_choose(alloc, cnf, names, output, c, a, b),
    }
}

/// Adds the clauses of the gate of this number, if it is kept.
fn define_kept(
    alloc: Global,
    cnf: &mut Cnf,
    names: &Names,
    store: &CircuitStore,
    marks: &[bool],
    kept: &[bool],
    number: u64,
) -> Result<(), AllocError>
    requires room { names.now.count ≤ cnf.old.variables }
    requires there { number < length store.now }
    requires few { length store.now < 2 ^ 63 }
    requires fitting { AreFitting store.now marks.now kept.now names.now.list.items }
    ensures variables { OnOk result (cnf.new.variables ≡ cnf.old.variables) }
    ensures value { OnOk result ((g : CircuitGate) (v : ℕ → Bool) (vs : List Bool) →
        slice_get store.now number ≡ Some g →
        IsShown store.now kept.now names.now.list.items v vs → satisfied v cnf.new.clauses
        ≡ (satisfied v cnf.old.clauses && defined_where vs v kept.now number g)) }
{
    if !is_marked(kept, number) {
        return Ok(());
    }
    let gate = store.gate(number);
    let leaves = leaves_of(alloc, store, marks, kept, gate)?;
    define(alloc, cnf, names, number, gate, &leaves)?;
    Ok(())
}

/// Adds the clauses of all gates that are kept. They say that each has the value that it computes.
pub fn define_all(
    alloc: Global,
    cnf: &mut Cnf,
    names: &Names,
    store: &CircuitStore,
    marks: &[bool],
    kept: &[bool],
) -> Result<(), AllocError>
    requires room { names.now.count ≤ cnf.old.variables }
    requires fitting { AreFitting store.now marks.now kept.now names.now.list.items }
    ensures variables { OnOk result (cnf.new.variables ≡ cnf.old.variables) }
    ensures value { OnOk result ((v : ℕ → Bool) (vs : List Bool) →
        IsShown store.now kept.now names.now.list.items v vs → satisfied v cnf.new.clauses
        ≡ (satisfied v cnf.old.clauses && all_defined vs v kept.now 0 store.now)) }
{
    for number in 0..store.gates() {
        define_kept(alloc, cnf, names, store, marks, kept, number)?;
    }
    Ok(())
}
