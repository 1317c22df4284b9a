//! What the gates of a circuit show of two nodes at once, without a search.

ghost use Rattle.std.specs.Prelude.{◌≡◌, ℕ, Bool, IsTrue, true, false};
ghost use Rattle.gate_trait.specs.Circuit.{BelongsTo, value_in};

use crate::store::CircuitStore;
use gate_trait::{Gate, Node};

/// Whether the first node is an `and` of the second and another.
fn has_part(store: &CircuitStore, whole: Node, part: Node) -> bool
    requires { BelongsTo store.now whole }
    ensures { IsTrue result → (x : ℕ → Bool) → value_in store.now x whole ≡ true →
        value_in store.now x part ≡ true }
{
    // for the proof: this call's clauses say what a store keeps
    let _count = store.gates();
    if whole.negated() {
        return false;
    }
    match store.gate(whole.number()) {
        Gate::And(a, b) => part.code == a.code || part.code == b.code,
        _ => false,
    }
}

/// Whether it shows that the second node is true wherever the first is: one of them is constant,
/// they are the same, or one is an `and` of which the other is a part.
pub(crate) fn implies(store: &CircuitStore, a: Node, b: Node) -> bool
    requires a_belongs { BelongsTo store.now a }
    requires b_belongs { BelongsTo store.now b }
    ensures { IsTrue result → (x : ℕ → Bool) → value_in store.now x a ≡ true →
        value_in store.now x b ≡ true }
{
    // for the proof: this call's clauses say what a store keeps
    let _count = store.gates();
    if a.code == b.code {
        return true;
    }
    if a.code == 1 {
        return true;
    }
    if b.code == 0 {
        return true;
    }
    if has_part(store, a, b) {
        return true;
    }
    has_part(store, b.opposite(), a.opposite())
}

/// Whether it shows that the nodes are never both true.
pub(crate) fn excludes(store: &CircuitStore, a: Node, b: Node) -> bool
    requires a_belongs { BelongsTo store.now a }
    requires b_belongs { BelongsTo store.now b }
    ensures { IsTrue result → (x : ℕ → Bool) → value_in store.now x a ≡ true →
        value_in store.now x b ≡ false }
{
    implies(store, a, b.opposite())
}

/// Whether it shows that one of the nodes is always true.
pub(crate) fn covers(store: &CircuitStore, a: Node, b: Node) -> bool
    requires a_belongs { BelongsTo store.now a }
    requires b_belongs { BelongsTo store.now b }
    ensures { IsTrue result → (x : ℕ → Bool) → value_in store.now x a ≡ false →
        value_in store.now x b ≡ true }
{
    implies(store, a.opposite(), b)
}
