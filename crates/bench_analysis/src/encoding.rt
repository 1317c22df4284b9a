//! The mode `encoding` compares circuits of small models with the meaning of the models, under all assignments: `MODEL ..`.
//! The naming's circuit isn't among them.
//!
//! Each word is the file of a model, whose commands are taken in turn. An assignment of a command's table
//! under which the circuit is sure is a lasso. Each such lasso is judged by the evaluator, which
//! shares nothing with the circuit: whether it keeps the scopes, whether the declarations hold at
//! every position, and whether each fact and the command hold at position 0. A line tells how many
//! assignments there are, how many are lassos, how many of these satisfy all, and how many
//! judgements differ from the circuit.
//!
//! Of a table with more than 16 variables a line tells only that the store that has each gate once
//! has fewer than a list of all.
//!
//! The status is 1 where one differs, the store hasn't fewer gates, or memory is wanting, and 3
//! where a model is refused.

mod comparing;
mod sizes;
mod values;

use answer_analysis::{Prepared, prepare_loaded};
use answer_search::clauses_of;
use anyhow::Result;
use base_library::EmbeddedLibrary;
use bound_uppers::{Layout, layout};
use comparing::{Question, Tally, compare};
use load_modules::load_text;
use sizes::sizes_of;
use std::alloc::{AllocError, Global};
use std::fs;
use std::rt::Files;

/// A command of a model, made ready, or none where the model is refused.
fn ready(rt: &(impl Files + AllocGlobal), name: &str, command: u32) -> Result<Option<Prepared>> {
    let alloc = rt.alloc();
    let text = fs::read(rt, name)?;
    let mut libraries = Vec::new(alloc);
    libraries.push(EmbeddedLibrary::new())?;
    let Ok(loaded) = load_text(alloc, &mut libraries, name, text.as_slice()) else {
        return Ok(None);
    };
    let Ok(prepared) = prepare_loaded(alloc, loaded, command) else {
        return Ok(None);
    };
    Ok(Some(prepared))
}

/// What is counted of a command; none where its table has too many variables. Where there are two states or more, the clauses are
/// to have more variables than the table, since one more says that just one loop is chosen.
fn tally_of(
    alloc: Global,
    prepared: &Prepared,
    table: &Layout,
) -> Result<Option<Tally>, AllocError> {
    let ready = &prepared.ready;
    let found = compare(
        alloc,
        &Question {
            model: &ready.model,
            command: ready.command,
            scopes: &ready.scopes,
            bounds: &ready.bounds,
            table,
            target: &prepared.target,
            first_fact: prepared.first_fact,
        },
    )?;
    let Some(mut tally) = found else {
        return Ok(None);
    };
    let clauses = clauses_of(alloc, &prepared.target, &ready.bounds, table)?;
    if ready.bounds.states > 1 && clauses.variables <= tally.variables {
        tally.different = tally.different.saturating_add(1);
    }
    Ok(Some(tally))
}

/// Prints what was counted of a command.
fn print_tally(rt: &impl Print, name: &str, command: u32, tally: Tally) -> Result<()> {
    let assignments = tally.assignments;
    let lassos = tally.lassos;
    let satisfied = tally.satisfied;
    let different = tally.different;
    println!(rt;
        "{name} {command}: {assignments} assignments, {lassos} lassos, {satisfied} satisfy, {different} differ"
    )?;
    Ok(())
}

/// Prints whether the store that has each gate once has fewer than a list of all. The answer is the status.
fn print_sizes(
    rt: &(impl Print + AllocGlobal),
    name: &str,
    command: u32,
    prepared: &Prepared,
    table: &Layout,
) -> Result<u8> {
    let bounds = &prepared.ready.bounds;
    let found = sizes_of(rt.alloc(), &prepared.target, bounds, table)?;
    if found.shared >= found.plain {
        println!(rt; "{name} {command}: no fewer gates in the store")?;
        return Ok(1);
    }
    println!(rt; "{name} {command}: fewer gates in the store")?;
    Ok(0)
}

/// Compares a command of a model. The answer is the status.
fn compare_prepared(
    rt: &(impl Print + AllocGlobal),
    name: &str,
    command: u32,
    prepared: &Prepared,
) -> Result<u8> {
    let table = layout(rt.alloc(), &prepared.ready.bounds)?;
    let Some(tally) = tally_of(rt.alloc(), prepared, &table)? else {
        return print_sizes(rt, name, command, prepared, &table);
    };
    print_tally(rt, name, command, tally)?;
    Ok(if tally.different == 0 { 0 } else { 1 })
}

/// Makes a command of a model ready and compares it. The answer is the status and how many commands there are.
fn compare_command(
    rt: &(impl Files + Print + AllocGlobal),
    name: &str,
    command: u32,
) -> Result<(u8, usize)> {
    let Some(prepared) = ready(rt, name, command)? else {
        return Ok((3, 0));
    };
    let status = compare_prepared(rt, name, command, &prepared)?;
    Ok((status, prepared.ready.model.commands.len()))
}

/// Compares all commands of a model. The answer is the status.
fn compare_model(rt: &(impl Files + Print + AllocGlobal), name: &str) -> Result<u8> {
    let mut status = 0;
    for command in 0..u32::MAX {
        let (next, commands) = compare_command(rt, name, command)?;
        if next > status {
            status = next;
        }
        if commands as u64 <= u64::from(command).saturating_add(1) {
            return Ok(status);
        }
    }
    Ok(status)
}

/// Compares all commands of the models that the words name.
pub fn run(rt: &(impl Files + Print + AllocGlobal), words: &[String]) -> Result<u8> {
    let mut status = 0;
    for name in words {
        let next = compare_model(rt, name.as_str())?;
        if next > status {
            status = next;
        }
    }
    Ok(status)
}
