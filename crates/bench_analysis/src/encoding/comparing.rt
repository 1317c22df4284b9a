//! Compares the roots of a circuit with the judgements of the evaluator.

use crate::encoding::values::low_bits;
use base_types::Assignment;
use bench_gates::{among, gate_values};
use bmc_encoder::{Encoded, encode};
use bound_uppers::{Bounds, Layout, decode};
use core_meaning::{Lasso, Scopes, Target};
use core_tree::{Formula, Model};
use eval_trace::{declared, holds, keeps};
use gate_store::CircuitStore;
use gate_trait::{Gates, Node};
use std::alloc::{AllocError, Global};

/// The most variables that a table may have here.
const MOST_VARIABLES: u64 = 16;

/// What a circuit is made from, and what its model says.
#[derive(Clone, Copy)]
pub struct Question<'a> {
    pub model: &'a Model,
    /// The number of the command.
    pub command: u32,
    pub scopes: &'a Scopes,
    pub bounds: &'a Bounds,
    /// The numbers of the variables.
    pub table: &'a Layout,
    pub target: &'a Target,
    /// How many formulas of the target say what the declarations do; those of the facts and the command follow.
    pub first_fact: u32,
}

/// What was counted of a command.
#[derive(Clone, Copy, Debug, PartialEq, Eq)]
pub struct Tally {
    /// How many variables the table has.
    pub variables: u64,
    pub assignments: u64,
    /// The assignments under which the circuit is sure.
    pub lassos: u64,
    /// The lassos that keep the scopes, the declarations, the facts and the command.
    pub satisfied: u64,
    /// The judgements that aren't those of the roots.
    pub different: u64,
}

impl Tally {
    /// Takes in a judgement of the evaluator and one of the circuit, and gives the first.
    fn add(&mut self, judged: bool, root: bool) -> bool {
        if judged != root {
            self.different = self.different.saturating_add(1);
        }
        judged
    }
}

/// A node of a list, or none behind its end, as it stands among the values of the gates.
fn root_value(values: &[bool], roots: &[Node], place: usize) -> bool {
    match roots.get(place) {
        Some(root) => among(values, *root),
        None => false,
    }
}

/// Whether all of these roots are true.
fn all_true(values: &[bool], roots: &[Node], first: usize, end: usize) -> bool {
    for place in first..end {
        if !root_value(values, roots, place) {
            return false;
        }
    }
    true
}

/// Takes in what is judged of a formula at the first position, and what its root says. The answer is whether it holds.
fn add_formula(
    alloc: Global,
    asked: &Question,
    lasso: &Lasso,
    formula: &Formula,
    root: bool,
    tally: &mut Tally,
) -> Result<bool, AllocError> {
    let truth = holds(alloc, asked.model, asked.scopes, lasso, formula, 0)?;
    Ok(tally.add(truth, root))
}

/// Takes in what is judged of the facts and the command, whose roots stand behind those of the declarations. The answer is
/// whether all hold.
fn add_parts(
    alloc: Global,
    asked: &Question,
    lasso: &Lasso,
    values: &[bool],
    roots: &[Node],
    tally: &mut Tally,
) -> Result<bool, AllocError> {
    let mut all_hold = true;
    let mut place = (asked.first_fact as usize).saturating_add(1);
    for fact in asked.model.facts.as_slice() {
        let root = root_value(values, roots, place);
        let fact_holds = add_formula(alloc, asked, lasso, &fact.formula, root, tally)?;
        all_hold = all_hold && fact_holds;
        place = place.saturating_add(1);
    }
    let Some(command) = asked.model.commands.as_slice().get(asked.command as usize) else {
        return Err(AllocError);
    };
    let root = root_value(values, roots, place);
    let command_holds = add_formula(alloc, asked, lasso, &command.formula, root, tally)?;
    tally.add(true, place.saturating_add(1) == roots.len());
    Ok(all_hold && command_holds)
}

/// Takes in what is judged of one lasso. The first root says that the scopes are kept, the next ones that the declarations hold,
/// and the rest that each fact and the command hold.
fn add_lasso(
    alloc: Global,
    asked: &Question,
    lasso: &Lasso,
    values: &[bool],
    roots: &[Node],
    tally: &mut Tally,
) -> Result<(), AllocError> {
    let first_part = (asked.first_fact as usize).saturating_add(1);
    let kept = keeps(alloc, asked.model, asked.scopes, lasso)?;
    let is_kept = tally.add(kept, root_value(values, roots, 0));
    let broken = declared(alloc, asked.model, asked.scopes, lasso)?;
    let is_declared = tally.add(broken.is_none(), all_true(values, roots, 1, first_part));
    let all_hold = add_parts(alloc, asked, lasso, values, roots, tally)?;
    if is_kept && is_declared && all_hold {
        tally.satisfied = tally.satisfied.saturating_add(1);
    }
    Ok(())
}

/// Takes in one assignment of the table, in which variable `k` has bit `k - 1` of the number.
fn add_assignment(
    alloc: Global,
    asked: &Question,
    store: &CircuitStore,
    encoded: &Encoded,
    number: u64,
    tally: &mut Tally,
) -> Result<(), AllocError> {
    tally.assignments = tally.assignments.saturating_add(1);
    let values = gate_values(alloc, store, number)?;
    if !among(&values, encoded.sure) || asked.bounds.states == 0 {
        return Ok(());
    }
    tally.lassos = tally.lassos.saturating_add(1);
    let inputs = low_bits(alloc, number, tally.variables)?;
    let assignment = Assignment::new(alloc, &inputs)?;
    let lasso = decode(alloc, asked.bounds, asked.table, &assignment)?;
    let roots = encoded.roots.as_slice();
    add_lasso(alloc, asked, &lasso, &values, roots, tally)
}

/// A store of gates whose inputs are the variables from 1 on.
fn store_of(alloc: Global, variables: u64) -> Result<CircuitStore, AllocError> {
    let mut store = CircuitStore::new(alloc);
    for variable in 0..variables {
        store.input(variable.saturating_add(1))?;
    }
    Ok(store)
}

/// Compares the circuit of a command with what the model means, under all assignments; none where there are too many.
pub fn compare(alloc: Global, asked: &Question) -> Result<Option<Tally>, AllocError> {
    let variables = asked.table.variables;
    if variables > MOST_VARIABLES {
        return Ok(None);
    }
    let mut store = store_of(alloc, variables)?;
    let encoded = encode(alloc, asked.target, asked.bounds, asked.table, &mut store)?;
    let mut tally = Tally {
        variables,
        assignments: 0,
        lassos: 0,
        satisfied: 0,
        different: 0,
    };
    let count = 1u64 << (variables % 64);
    for number in 0..count {
        add_assignment(alloc, asked, &store, &encoded, number, &mut tally)?;
    }
    Ok(Some(tally))
}
