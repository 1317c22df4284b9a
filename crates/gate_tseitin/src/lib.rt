//! Circuits as clauses, by the encoding of Tseitin.
//!
//! Tseitin (On the complexity of derivation in propositional calculus, 1968) gives each gate a
//! variable of its own, and a definition: clauses that say that the variable has the value that
//! the gate computes from the variables of its operands. So the clauses grow with the circuit,
//! where a formula in conjunctive normal form without such variables may grow exponentially. Three
//! clauses define an `and` or an `or`, four an `xor` or a choice. A negated node is a negated
//! literal and needs none.
//!
//! [`write_clauses`] does so for the gates that `sure` or a root reaches (`reach`), and for no
//! other. An `and` that is named only once, by an `and` and without a negation, is folded into that
//! one and has no variable (`fold`): a tree of such is one gate over its leaves (`leaves`), which
//! one clause of two literals for each leaf defines, and a long one. An `or` is stored as a negated
//! `and` of negations, so the same goes for it. The inputs keep their numbers, which are those from
//! 1 on; other gates have the numbers after them (`names`). The first clauses are the definitions
//! (`define`) and the clause that `sure` is true; then comes for each root the clause of its literal
//! alone (`write`).
//!
//! Each definition has both directions. Plaisted and Greenbaum (A structure-preserving clause form
//! translation, 1986) leave out the one that a gate's polarity doesn't need; then several
//! assignments may extend one of the inputs. Here each assignment of the inputs under which `sure`
//! is true is extended by one and only one assignment of the first clauses. None of these has
//! `sure` false, and in each a root's literal has the root's value. So the assignments that
//! satisfy all clauses are those of the inputs under which `sure` and all roots are true, one for
//! each.
#![tactic(auto)]

mod define;
mod fold;
mod leaves;
mod names;
mod reach;
mod write;

pub use names::{are_numbered, count_inputs};
pub use write::write_clauses;
