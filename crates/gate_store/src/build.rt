//! The simplifications that are tried before a gate is added.

ghost use Rattle.std.specs.Prelude.{◌≡◌, ◌<◌, ◌&&◌, ◌||◌, ℕ, Bool, not, length, IfOk, slice_index_or, false, if◌then◌else◌};
ghost use Rattle.gate_trait.specs.Circuit.{BelongsTo, value_in, values};
ghost use Rattle.gate_trait.specs.Built.{Keeps, Computes, xor};

use crate::facts::{covers, excludes, implies};
use crate::store::CircuitStore;
use gate_trait::{Gate, Gates, Node};
use std::alloc::AllocError;

/// The node that always has this value.
fn constant_node(store: &CircuitStore, value: bool) -> Node
    ensures { Computes BelongsTo value_in store.now result (λ _. value) }
{
    // for the proof: this call's clauses say what a store keeps
    let _count = store.gates();
    Node {
        code: if value { 0 } else { 1 },
    }
}

/// The negation of a node.
fn negation(store: &CircuitStore, node: Node) -> Node
    requires { BelongsTo store.now node }
    ensures { Computes BelongsTo value_in store.now result (λ x. not (value_in store.now x node)) }
{
    node.opposite()
}

/// The `and` of two nodes.
fn both(store: &mut CircuitStore, a: Node, b: Node) -> Result<Node, AllocError>
    requires a_belongs { BelongsTo store.old a }
    requires b_belongs { BelongsTo store.old b }
    ensures keeps { Keeps BelongsTo value_in store.old store.new }
    ensures ok { IfOk result (λ n. Computes BelongsTo value_in store.new n
        (λ x. value_in store.old x a && value_in store.old x b)) }
{
    if implies(store, a, b) {
        return Ok(a);
    }
    if implies(store, b, a) {
        return Ok(b);
    }
    if excludes(store, a, b) {
        return Ok(constant_node(store, false));
    }
    if a.code < b.code {
        store.add(Gate::And(a, b))
    } else {
        store.add(Gate::And(b, a))
    }
}

/// The `or` of two nodes: they aren't both false.
fn either(store: &mut CircuitStore, a: Node, b: Node) -> Result<Node, AllocError>
    requires a_belongs { BelongsTo store.old a }
    requires b_belongs { BelongsTo store.old b }
    ensures keeps { Keeps BelongsTo value_in store.old store.new }
    ensures ok { IfOk result (λ n. Computes BelongsTo value_in store.new n
        (λ x. value_in store.old x a || value_in store.old x b)) }
{
    let not_a = negation(store, a);
    let not_b = negation(store, b);
    let neither = both(store, not_a, not_b)?;
    Ok(negation(store, neither))
}

/// The exclusive or of two gates, the one with the lower number first.
fn exclusive_gates(store: &mut CircuitStore, low: u64, high: u64) -> Result<Node, AllocError>
    requires low_there { low < length store.old }
    requires high_there { high < length store.old }
    ensures keeps { Keeps BelongsTo value_in store.old store.new }
    ensures ok { IfOk result (λ n. Computes BelongsTo value_in store.new n (λ x.
        xor (slice_index_or (values store.old x) low false)
        (slice_index_or (values store.old x) high false))) }
{
    // for the proof: this call's clauses say what a store keeps
    let _count = store.gates();
    if low == high {
        return Ok(constant_node(store, false));
    }
    let other = Node::of_gate(high);
    if low == 0 {
        return Ok(negation(store, other));
    }
    store.add(Gate::Xor(Node::of_gate(low), other))
}

/// Whether just one of two nodes is true.
fn exclusive(store: &mut CircuitStore, a: Node, b: Node) -> Result<Node, AllocError>
    requires a_belongs { BelongsTo store.old a }
    requires b_belongs { BelongsTo store.old b }
    ensures keeps { Keeps BelongsTo value_in store.old store.new }
    ensures ok { IfOk result (λ n. Computes BelongsTo value_in store.new n
        (λ x. xor (value_in store.old x a) (value_in store.old x b))) }
{
    let node = if a.number() < b.number() {
        exclusive_gates(store, a.number(), b.number())?
    } else {
        exclusive_gates(store, b.number(), a.number())?
    };
    if a.negated() == b.negated() {
        Ok(node)
    } else {
        Ok(negation(store, node))
    }
}

/// A choice whose first branch isn't negated.
fn signed_choice(store: &mut CircuitStore, c: Node, a: Node, b: Node) -> Result<Node, AllocError>
    requires c_belongs { BelongsTo store.old c }
    requires a_belongs { BelongsTo store.old a }
    requires b_belongs { BelongsTo store.old b }
    ensures keeps { Keeps BelongsTo value_in store.old store.new }
    ensures ok { IfOk result (λ n. Computes BelongsTo value_in store.new n
        (λ x. if value_in store.old x c then value_in store.old x a else value_in store.old x b)) }
{
    if !a.negated() {
        return store.add(Gate::Choose(c, a, b));
    }
    let not_a = negation(store, a);
    let not_b = negation(store, b);
    let node = store.add(Gate::Choose(c, not_a, not_b))?;
    Ok(negation(store, node))
}

/// A choice by two branches that differ, and that the condition doesn't decide.
fn open_choice(store: &mut CircuitStore, c: Node, a: Node, b: Node) -> Result<Node, AllocError>
    requires c_belongs { BelongsTo store.old c }
    requires a_belongs { BelongsTo store.old a }
    requires b_belongs { BelongsTo store.old b }
    ensures keeps { Keeps BelongsTo value_in store.old store.new }
    ensures ok { IfOk result (λ n. Computes BelongsTo value_in store.new n
        (λ x. if value_in store.old x c then value_in store.old x a else value_in store.old x b)) }
{
    if a.code == b.code {
        return Ok(a);
    }
    if a.number() == b.number() {
        let other = exclusive(store, c, a)?;
        return Ok(negation(store, other));
    }
    if c.negated() {
        let not_c = negation(store, c);
        signed_choice(store, not_c, b, a)
    } else {
        signed_choice(store, c, a, b)
    }
}

/// The value of `a` where `c` is true, else that of `b`.
fn choice(store: &mut CircuitStore, c: Node, a: Node, b: Node) -> Result<Node, AllocError>
    requires c_belongs { BelongsTo store.old c }
    requires a_belongs { BelongsTo store.old a }
    requires b_belongs { BelongsTo store.old b }
    ensures keeps { Keeps BelongsTo value_in store.old store.new }
    ensures ok { IfOk result (λ n. Computes BelongsTo value_in store.new n
        (λ x. if value_in store.old x c then value_in store.old x a else value_in store.old x b)) }
{
    let not_c = negation(store, c);
    if implies(store, c, a) {
        return either(store, c, b);
    }
    if excludes(store, c, a) {
        return both(store, not_c, b);
    }
    if implies(store, b, c) {
        return both(store, c, a);
    }
    if covers(store, c, b) {
        return either(store, not_c, a);
    }
    open_choice(store, c, a, b)
}

impl Gates for CircuitStore {
    ghost belongs = { BelongsTo };

    ghost node_value = { value_in };

    fn constant(&self, value: bool) -> Node {
        constant_node(self, value)
    }

    fn not(&self, a: Node) -> Node {
        negation(self, a)
    }

    fn input(&mut self, variable: u64) -> Result<Node, AllocError> {
        self.add(Gate::Input(variable))
    }

    fn and(&mut self, a: Node, b: Node) -> Result<Node, AllocError> {
        both(self, a, b)
    }

    fn or(&mut self, a: Node, b: Node) -> Result<Node, AllocError> {
        either(self, a, b)
    }

    fn xor(&mut self, a: Node, b: Node) -> Result<Node, AllocError> {
        exclusive(self, a, b)
    }

    fn choose(&mut self, c: Node, a: Node, b: Node) -> Result<Node, AllocError> {
        choice(self, c, a, b)
    }
}
