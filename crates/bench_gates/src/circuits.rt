//! Builds circuits and matrices of a given size, to measure how long that takes, and prints sizes.
//!
//! `clauses N` writes a circuit of N gates as clauses. `join N` joins two matrices of ten pairs for each of N atoms: each
//! atom in the middle stands in ten of the second and in about ten of the first. `closure N` closes a relation over N atoms with
//! five pairs an atom. N is at least 1, and in the last two at most 16,384. Other words are answered with status 2.

ghost use Rattle.std.specs.Prelude.{◌≡◌, ◌<◌, ◌≤◌, All, IfOk, OnOk};
ghost use Rattle.gate_trait.specs.Circuit.{BelongsTo};
ghost use Rattle.gate_trait.specs.declared.node.Node.{Node as CircuitNode};
ghost use Rattle.gate_matrix.specs.Matrices.{AllBelong};
ghost use Rattle.gate_closure.specs.Walks.{IsBelow};

use anyhow::Result;
use core_tuples::Tuple;
use gate_closure::closure;
use gate_matrix::{Matrix, join};
use gate_store::CircuitStore;
use gate_trait::{Gates, Node, NodeList};
use gate_tseitin::{are_numbered, write_clauses};
use std::alloc::{AllocError, Global};

/// One more gate, of a kind by its number.
fn one_more(store: &mut CircuitStore, number: u64, a: Node, b: Node) -> Result<Node, AllocError>
    requires a_belongs { BelongsTo store.old a }
    requires b_belongs { BelongsTo store.old b }
    ensures a_stays { BelongsTo store.new a }
    ensures belongs { IfOk result (λ n. BelongsTo store.new n) }
{
    let other = store.not(b);
    match number % 3 {
        0 => store.and(a, other),
        1 => store.xor(a, b),
        _ => store.choose(a, other, b),
    }
}

/// The last of so many gates, each over the two before it.
fn grow(store: &mut CircuitStore, count: u64) -> Result<Node, AllocError>
    ensures { IfOk result (λ n. BelongsTo store.new n) }
{
    let mut before = store.input(1)?;
    let mut last = store.input(2)?;
    for number in 0..count {
        let next = one_more(store, number, last, before)?;
        before = last;
        last = next;
    }
    Ok(last)
}

/// The atom that follows the one of number `from` at the `step`-th of its pairs: in a closure the five next ones of five
/// times the number, in a join the one with the same number within a tenth of the atoms, in the tenth of number `step`.
fn follower(branches: bool, from: u32, step: u32, atoms: u32) -> u32
    requires some { 0 < atoms }
    requires few { atoms ≤ 16384 }
    requires from { from < atoms }
    requires step { step < 10 }
    ensures { result < atoms }
{
    if branches {
        (5 * from + step + 1) % atoms
    } else {
        let tenth = atoms / 10 + 1;
        (from % tenth + step * tenth) % atoms
    }
}

/// Puts a pair whose node is an input of its own.
fn put_pair(
    alloc: Global,
    store: &mut CircuitStore,
    matrix: &mut Matrix,
    first: u32,
    second: u32,
    atoms: u32,
) -> Result<(), AllocError>
    requires few { atoms ≤ 16384 }
    requires first { first < atoms }
    requires second { second < atoms }
    requires columns { matrix.old.arity ≡ 2 }
    requires below { IsBelow atoms matrix.old }
    requires belong { AllBelong (BelongsTo store.old) matrix.old.entries }
    ensures keeps { (n : CircuitNode) → BelongsTo store.old n → BelongsTo store.new n }
    ensures columns { matrix.new.arity ≡ 2 }
    ensures below { IsBelow atoms matrix.new }
    ensures belong { AllBelong (BelongsTo store.new) matrix.new.entries }
{
    let node = store.input(store.gates() + 1)?;
    let tuple = Tuple::of(alloc, &[first, second])?;
    matrix.put(tuple, node)
}

/// The pairs of each atom with so many followers.
fn pairs(
    alloc: Global,
    store: &mut CircuitStore,
    branches: bool,
    atoms: u32,
    each: u32,
) -> Result<Matrix, AllocError>
    requires some { 0 < atoms }
    requires few { atoms ≤ 16384 }
    requires each { each ≤ 10 }
    ensures keeps { (n : CircuitNode) → BelongsTo store.old n → BelongsTo store.new n }
    ensures columns { IfOk result (λ m. m.arity ≡ 2) }
    ensures below { IfOk result (λ m. IsBelow atoms m) }
    ensures belong { IfOk result (λ m. AllBelong (BelongsTo store.new) m.entries) }
{
    let mut matrix = Matrix::empty(alloc, 2);
    for from in 0..atoms {
        for step in 0..each {
            let second = follower(branches, from, step, atoms);
            put_pair(alloc, store, &mut matrix, from, second, atoms)?;
        }
    }
    Ok(matrix)
}

/// Writes a circuit of so many gates as clauses.
fn measure_clauses(rt: &(impl Print + AllocGlobal), count: u64) -> Result<u8> {
    let mut store = CircuitStore::new(rt.alloc());
    let root = grow(&mut store, count)?;
    if !are_numbered(&store) {
        return Ok(3);
    }
    let mut roots = NodeList::new(rt.alloc());
    roots.push(root)?;
    let cnf = write_clauses(rt.alloc(), &store, root, &roots)?;
    let gates = store.gates();
    let variables = cnf.variables;
    let clauses = cnf.clauses.len();
    println!(rt; "gates {gates} variables {variables} clauses {clauses}")?;
    Ok(0)
}

/// Joins two matrices of ten pairs an atom.
fn measure_join(rt: &(impl Print + AllocGlobal), atoms: u32) -> Result<u8>
    requires some { 0 < atoms }
    requires few { atoms ≤ 16384 }
{
    let mut store = CircuitStore::new(rt.alloc());
    let first = pairs(rt.alloc(), &mut store, false, atoms, 10)?;
    let second = pairs(rt.alloc(), &mut store, false, atoms, 10)?;
    let joined = join(rt.alloc(), &mut store, &first, &second)?;
    let left = first.len();
    let right = second.len();
    let entries = joined.len();
    let gates = store.gates();
    println!(rt; "left {left} right {right} joined {entries} gates {gates}")?;
    Ok(0)
}

/// Closes a relation of five pairs an atom.
fn measure_closure(rt: &(impl Print + AllocGlobal), atoms: u32) -> Result<u8>
    requires some { 0 < atoms }
    requires few { atoms ≤ 16384 }
{
    let mut store = CircuitStore::new(rt.alloc());
    let relation = pairs(rt.alloc(), &mut store, true, atoms, 5)?;
    let closed = closure(rt.alloc(), &mut store, &relation, u64::from(atoms))?;
    let pairs = relation.len();
    let entries = closed.len();
    let gates = store.gates();
    println!(rt; "pairs {pairs} closed {entries} gates {gates}")?;
    Ok(0)
}

/// What the words ask for.
fn measure(rt: &(impl Print + AllocGlobal), kind: &str, count: &str) -> Result<u8> {
    let Ok(number) = count.parse::<u32>() else {
        return Ok(2);
    };
    if kind == "clauses" {
        return measure_clauses(rt, u64::from(number));
    }
    if number == 0 || number > 16_384 {
        return Ok(2);
    }
    if kind == "join" {
        return measure_join(rt, number);
    }
    if kind == "closure" {
        return measure_closure(rt, number);
    }
    Ok(2)
}

/// Measures what the words ask for, a kind and a size.
pub fn run(rt: &(impl Print + AllocGlobal), words: &[String]) -> Result<u8> {
    let (Some(kind), Some(count)) = (words.first(), words.get(1)) else {
        return Ok(2);
    };
    measure(rt, kind.as_str(), count.as_str())
}
