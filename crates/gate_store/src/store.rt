//! The store of gates: one vector, and a map that finds a gate again by its operands.

ghost use Rattle.std.specs.Prelude.{◌≡◌, ◌<◌, ◌^◌, [], ◌∷◌, ◌++◌, ◌+◌, length, slice_get, Some, true, false, OnOk, OnErr, IfOk, IfSome, IfNone, ℕ, if◌then◌else◌};
ghost use Rattle.gate_trait.specs.Circuit.{IsLayered, IsAbove, BelongsTo, value_in, gate_value, values};
ghost use Rattle.gate_trait.specs.Built.{Keeps, Computes};
ghost use Rattle.gate_trait.specs.NodeWords.{number_of, is_negated};
ghost use Rattle.gate_trait.specs.declared.gate.Gate.{Gate as CircuitGate};
ghost use Rattle.gate_trait.specs.declared.gate.Gate.TheVariants.{Constant, Input};
ghost use Rattle.std.specs.HashMap.{get};
ghost use Rattle.gate_store.specs.Index.{IsIndexed, HasNoRepeat, is_constant};

use gate_trait::{Gate, Node};
use std::alloc::{AllocError, Global};
use std::collections::HashMap;
use std::marker::Model;

/// A circuit that keeps each gate once, in one vector (hash-consing). Gate 0 is the constant true,
/// which takes no memory. The nodes of a gate name gates with lower numbers.
///
/// Before a gate is added, its operands are ordered, signs are drawn out of exclusive ors and
/// choices, an `or` becomes the negation of an `and`, and a gate that constants, equal or opposite
/// operands or an operand's own parts decide isn't added at all.
#[derive(Drop)]
pub struct CircuitStore {
    /// The gates from number 1 on.
    rest: Vec<Gate>,
    /// The number of each of these gates.
    numbers: HashMap<Gate, u64>,
}

impl Model for CircuitStore {
    ghost use Rattle.std.specs.Prelude.{List, ◌∷◌, true};
    ghost use Rattle.std.specs.HashMap.{get};
    ghost use Rattle.gate_trait.specs.declared.gate.Gate.{Gate as CircuitGate};
    ghost use Rattle.gate_trait.specs.declared.gate.Gate.TheVariants.{Constant};
    ghost use Rattle.gate_store.specs.Index.{IsIndexed};

    ghost Value = { List CircuitGate };

    ghost view = { λ circuit. Constant true ∷ circuit.rest.items };

    ghost invariant = { λ circuit. IsIndexed (λ g. get ⟦<Gate as PartialEq>⟧.eq circuit.numbers g) (Constant true ∷ circuit.rest.items) };
}

/// The greatest number of gates, more than any memory has room for.
const MOST_GATES: u64 = (1 << 63) - 1;

/// One more gate, which the map doesn't lead to yet.
fn add_new(
    rest: &mut Vec<Gate>,
    numbers: &mut HashMap<Gate, u64>,
    gate: Gate,
) -> Result<Node, AllocError>
    ensures ok { OnOk result (rest.new.items ≡ rest.old.items ++ gate ∷ []) }
    ensures ok_found { OnOk result ((q : CircuitGate) → get ⟦<Gate as PartialEq>⟧.eq numbers.new q
        ≡ (if ⟦<Gate as PartialEq>⟧.eq gate q
        then Some (length rest.old.items + 1)
        else get ⟦<Gate as PartialEq>⟧.eq numbers.old q)) }
    ensures ok_few { OnOk result (length rest.old.items + 2 < 2 ^ 63) }
    ensures err { OnErr result (rest.new.items ≡ rest.old.items) }
    ensures err_found { OnErr result ((q : CircuitGate) → get ⟦<Gate as PartialEq>⟧.eq numbers.new q
        ≡ get ⟦<Gate as PartialEq>⟧.eq numbers.old q) }
    ensures node { IfOk result (λ n. (number_of n ≡ length rest.old.items + 1)
        × (is_negated n ≡ false)) }
{
    let number = rest.len() as u64 + 1;
    if number >= MOST_GATES - 1 {
        return Err(AllocError);
    }
    rest.reserve(1)?;
    numbers.insert(gate, number)?;
    rest.push_reserved(gate);
    Ok(Node::of_gate(number))
}

impl CircuitStore {
    /// The circuit with the constant alone.
    pub fn new(alloc: Global) -> CircuitStore
        ensures { result ≡ Constant true ∷ [] }
    {
        CircuitStore {
            rest: Vec::new(alloc),
            numbers: HashMap::new(alloc),
        }
    }

    /// How many gates the circuit has, the constant among them.
    pub fn gates(&self) -> u64
        ensures count { result ≡ length self.now }
        ensures first { slice_get self.now 0 ≡ Some (Constant true) }
        ensures layered { IsLayered self.now }
        ensures distinct { HasNoRepeat self.now }
        ensures few { length self.now < 2 ^ 63 }
    {
        self.rest.len() as u64 + 1
    }

    /// The gate with this number.
    pub fn gate(&self, number: u64) -> Gate
        requires { number < length self.now }
        ensures { slice_get self.now number ≡ Some result }
    {
        if number == 0 {
            Gate::Constant(true)
        } else {
            self.rest[(number - 1) as usize]
        }
    }

    /// The number of the gate for an input variable, or None where none was asked for.
    pub fn input_number(&self, variable: u64) -> Option<u64>
        ensures found { IfSome result (λ k. slice_get self.now k ≡ Some (Input variable)) }
        ensures absent { IfNone result ((k : ℕ) → slice_get self.now k ≡ Some (Input variable) →
            ⊥) }
    {
        match self.numbers.get(&Gate::Input(variable)) {
            Some(number) => Some(*number),
            None => None,
        }
    }

    /// The node of a gate, which is added where the circuit doesn't have it.
    pub(crate) fn add(&mut self, gate: Gate) -> Result<Node, AllocError>
        requires lower { IsAbove (length self.old) gate }
        requires no_constant { is_constant gate ≡ false }
        ensures keeps { Keeps BelongsTo value_in self.old self.new }
        ensures ok { IfOk result (λ n. Computes BelongsTo value_in self.new n
            (λ x. gate_value (values self.old x) x gate)) }
    {
        match self.numbers.get(&gate) {
            Some(number) => Ok(Node::of_gate(*number)),
            None => add_new(&mut self.rest, &mut self.numbers, gate),
        }
    }
}
