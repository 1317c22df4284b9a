//! The mode `stages` measures the stages of one analysis: `sizes MODEL COMMAND` and `times MODEL COMMAND`.
//!
//! The first prints the numbers of gates, variables, clauses and lemmas, and the answer. The second prints the processor
//! time of each stage in milliseconds: of loading, of names, scopes, forms and bounds, of the circuit, of the clauses, and of
//! the search. Other words are answered with status 2, a model that is refused with 3.

use answer_analysis::{Prepared, prepare_loaded};
use answer_search::{circuit_of, table_store};
use anyhow::Result;
use base_types::Library;
use bound_uppers::{Bounds, layout};
use core_meaning::Target;
use gate_tseitin::{are_numbered, write_clauses};
use load_modules::load;
use sat_decide::Activity;
use sat_dimacs::Cnf;
use sat_lrat::Outcome;
use sat_solver::solve_with;
use std::alloc::{AllocError, Global};
use std::time::CpuClock;

/// What is measured of an analysis.
#[derive(Drop)]
struct Measured {
    /// When each stage ended, in milliseconds of processor time.
    ends: [u64; 6],
    gates: u64,
    variables: u64,
    clauses: usize,
    lemmas: usize,
    answer: &'static str,
}

/// The processor time that was used so far, in milliseconds.
fn millis(rt: &impl CpuClock) -> Result<u64> {
    let time = rt.process_cpu_time()?;
    let whole = time.as_secs().saturating_mul(1000);
    Ok(whole.saturating_add(u64::from(time.subsec_millis())))
}

/// The answer of a search, and how many lemmas it has.
fn searched(alloc: Global, cnf: &Cnf) -> Result<(&'static str, usize), AllocError> {
    let mut chooser = Activity::new(alloc);
    match solve_with(alloc, cnf, &mut chooser, None)? {
        Outcome::Assignment(_) => Ok(("trace", 0)),
        Outcome::Refutation(lines) => Ok(("none", lines.len())),
        Outcome::Spent(lines) => Ok(("unknown", lines.len())),
    }
}

/// Goes through the stages behind the preparation.
fn run_stages(
    rt: &(impl CpuClock + AllocGlobal),
    target: &Target,
    bounds: &Bounds,
    begun: u64,
    loaded: u64,
) -> Result<Option<Measured>> {
    let alloc = rt.alloc();
    let prepared = millis(rt)?;
    let table = layout(alloc, bounds)?;
    let mut store = table_store(alloc, table.variables)?;
    let circuit = circuit_of(alloc, target, bounds, &table, &mut store)?;
    let built = millis(rt)?;
    if !are_numbered(&store) {
        return Ok(None);
    }
    let cnf = write_clauses(alloc, &store, circuit.sure, &circuit.roots)?;
    let written = millis(rt)?;
    let (answer, lemmas) = searched(alloc, &cnf)?;
    let ended = millis(rt)?;
    Ok(Some(Measured {
        ends: [begun, loaded, prepared, built, written, ended],
        gates: store.gates(),
        variables: cnf.variables,
        clauses: cnf.clauses.len(),
        lemmas,
        answer,
    }))
}

/// Prints how long each stage took.
fn print_times(rt: &impl Print, ends: &[u64; 6]) -> Result<()> {
    let load = ends[1].saturating_sub(ends[0]);
    let prepare = ends[2].saturating_sub(ends[1]);
    let circuit = ends[3].saturating_sub(ends[2]);
    let clauses = ends[4].saturating_sub(ends[3]);
    let search = ends[5].saturating_sub(ends[4]);
    println!(rt;
        "load {load} prepare {prepare} circuit {circuit} clauses {clauses} search {search}"
    )?;
    Ok(())
}

/// Prints how large each stage's result is.
fn print_sizes(rt: &impl Print, measured: &Measured) -> Result<()> {
    let Measured {
        ends: _,
        gates,
        variables,
        clauses,
        lemmas,
        answer,
    } = measured;
    println!(rt;
        "gates {gates} variables {variables} clauses {clauses} lemmas {lemmas} answer {answer}"
    )?;
    Ok(())
}

/// Goes through the stages behind the preparation, and prints what this kind asks for. The answer is the status.
fn measure_prepared(
    rt: &(impl CpuClock + Print + AllocGlobal),
    kind: &str,
    prepared: &Prepared,
    begun: u64,
    loaded: u64,
) -> Result<u8> {
    let bounds = &prepared.ready.bounds;
    let Some(measured) = run_stages(rt, &prepared.target, bounds, begun, loaded)? else {
        return Ok(5);
    };
    if kind == "sizes" {
        print_sizes(rt, &measured)?;
    } else {
        print_times(rt, &measured.ends)?;
    }
    Ok(0)
}

/// Measures the analysis of this command of a model.
fn measure<L: Library>(
    rt: &(impl CpuClock + Print + AllocGlobal),
    library: L,
    kind: &str,
    root: &str,
    command: u32,
) -> Result<u8> {
    let begun = millis(rt)?;
    let mut libraries = Vec::new(rt.alloc());
    libraries.push(library)?;
    let Ok(loaded) = load(rt.alloc(), &mut libraries, root) else {
        return Ok(3);
    };
    let read = millis(rt)?;
    let Ok(prepared) = prepare_loaded(rt.alloc(), loaded, command) else {
        return Ok(3);
    };
    measure_prepared(rt, kind, &prepared, begun, read)
}

/// Measures what the words ask for: a kind, a model's name and the number of a command. The library has the model and what it
/// opens.
pub fn run<L: Library>(
    rt: &(impl CpuClock + Print + AllocGlobal),
    library: L,
    words: &[String],
) -> Result<u8> {
    let (Some(kind), Some(root), Some(number)) = (words.first(), words.get(1), words.get(2)) else {
        return Ok(2);
    };
    let Ok(command) = number.as_str().parse::<u32>() else {
        return Ok(2);
    };
    let kind = kind.as_str();
    if kind != "sizes" && kind != "times" {
        return Ok(2);
    }
    measure(rt, library, kind, root.as_str(), command)
}
