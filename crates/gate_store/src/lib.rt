//! A circuit in which no two gates are equal, by hash consing.
//!
//! Hash consing keeps one copy of each value that is built: before a gate is added, a map is asked
//! for an equal one, and where there is one, its number is the answer. In circuits the same is
//! called structural hashing (Kuehlmann, Paruthi, Krohm and Ganai, Robust Boolean reasoning for
//! equivalence checking and functional property verification, 2002). So what formulas share, and
//! what is the same at several places of a window, is built once and has at most one variable in
//! the clauses.
//!
//! Equal gates are found more often where each has one form. So before a gate is looked up,
//!
//! - the operands of `and` and `xor` are ordered;
//! - signs are drawn out of `xor`, and out of the condition and the first branch of a choice;
//! - `or` becomes the negation of an `and`, as in an and-inverter graph.
//!
//! No gate is added where an operand is constant, where the operands are equal or opposite, or
//! where one is an `and` of which the other, or its negation, is a part (`facts`). The last are
//! among the rules that Brummayer and Biere (Local two-level and-inverter graph minimization
//! without blowup, 2006) call idempotence, contradiction and subsumption. No rule searches.
//!
//! A node is twice the number of a gate, and one more where its value is negated: negation is
//! free. Gate 0 is the constant true. A gate names gates with lower numbers alone.
#![tactic(auto)]

mod build;
mod facts;
mod store;

pub use store::CircuitStore;
