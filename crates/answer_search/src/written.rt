//! The clauses of a target: its circuit over the table, written by the encoding of Tseitin.

ghost use Rattle.std.specs.Prelude.{◌≡◌, ◌<◌, IfOk, IsTrue, length};
ghost use Rattle.bound_uppers.specs.Table.{IsLaidOut};
ghost use Rattle.gate_tseitin.specs.Named.{input_count};
ghost use Rattle.sat_solver.specs.News.{AreAllFilled};
ghost use Rattle.answer_search.specs.Clauses.{SayTarget};

use crate::circuit::{circuit_of, table_store};
use bmc_laws::{candidates_are_told, values_tell};
use bound_naming::{have_sets, naming_is_decided};
use bound_uppers::{Bounds, Layout, one_lasso_is_decoded};
use core_meaning::Target;
use gate_store::CircuitStore;
use gate_tseitin::{are_numbered, count_inputs, write_clauses};
use sat_dimacs::{Clause, Cnf};
use std::alloc::{AllocError, Global};

/// Whether a circuit has as many inputs as a table has variables.
fn has_inputs(store: &CircuitStore, variables: u64) -> bool
    ensures { IsTrue result → variables ≡ input_count store.now }
{
    variables == count_inputs(store)
}

/// Whether a clause has a literal.
fn is_filled(clause: &Clause) -> bool
    ensures { IsTrue result → 0 < length clause.now }
{
    clause.len() > 0
}

/// Whether each clause has one.
#[tactic(auto, using(crate::proofs::FilledLaw::filled_first, crate::proofs::FilledLaw::filled_more, crate::proofs::FilledLaw::filled_all))]
fn are_filled(clauses: &[Clause]) -> bool
    ensures { IsTrue result → AreAllFilled clauses.now }
{
    for clause in clauses {
        if !is_filled(clause) {
            return false;
        }
    }
    true
}

/// Clauses over the table of the bounds: the definitions of a circuit, which say that an assignment is a lasso, and then
/// units: one that says that the lasso is canonical, one that it keeps the numbers of the scopes, and one for each formula
/// of the target. None is empty.
///
/// The variables of the table come first, under their own numbers, which are lent. Each lasso within the bounds has one
/// assignment of the definitions, and there are no others. The only error is want of memory.
pub fn clauses_of(
    alloc: Global,
    target: &Target,
    bounds: &Bounds,
    table: &Layout,
) -> Result<Cnf, AllocError>
    ensures says { IsLaidOut bounds.now table.now →
        IfOk result (SayTarget target.now bounds.now) }
    ensures filled { IfOk result (λ cnf. AreAllFilled cnf.clauses) }
{
    let mut store = table_store(alloc, table.variables)?;
    let circuit = circuit_of(alloc, target, bounds, table, &mut store)?;
    let numbered = are_numbered(&store);
    if !numbered {
        // The circuit asks for no input but those of the table, so this is never met.
        return Err(AllocError);
    }
    let whole = has_inputs(&store, table.variables);
    if !whole {
        // The inputs are the variables of the table, so this is never met either.
        return Err(AllocError);
    }
    have_sets(bounds);
    naming_is_decided();
    candidates_are_told();
    values_tell();
    one_lasso_is_decoded();
    let cnf = write_clauses(alloc, &store, circuit.sure, &circuit.roots)?;
    let list = cnf.clauses.clauses();
    let filled = are_filled(list);
    if !filled {
        // Definitions and units have literals, so this isn't met either.
        return Err(AllocError);
    }
    Ok(cnf)
}
