//! The workbench: runs the stored rows of inputs and answers, and measures parts of alloyc by themselves:
//! `bench_alloyc MODE WORD.. then MODE WORD.. then ..`.
//!
//! | Mode | Words | Does |
//! |---|---|---|
//! | `tables` | `TABLE ..` | runs rows of command lines, and prints the answers |
//! | `encoding` | `MODEL ..` | compares circuits of small models with the meaning of the models |
//! | `parser` | `NAME ..` | says of texts what the lexer and the parsers make of them |
//! | `circuits` | `clauses N`, `join N` or `closure N` | builds circuits and matrices of this size |
//! | `stages` | `sizes MODEL COMMAND` or `times MODEL COMMAND` | measures the stages of one analysis |
//! | `dimacs` | `FILE` | searches over the clauses of a DIMACS text |
//! | `random` | `COUNT` | compares searches over small random formulas with all assignments |
//!
//! What a mode prints, and its statuses, stand at the head of its module, here and in `bench_gates`, `bench_parser`,
//! `bench_search` and `bench_analysis`. The mode `stages` reads what a model opens from files, those of util/ too. With no
//! mode, or another one, a line of usage is printed, with status 2. The program ends with the greatest status of its modes.
#![tactic(auto)]

mod tables;

use anyhow::Result;
use base_host::FolderLibrary;
use bench_analysis::{encoding, stages};
use bench_gates::circuits;
use bench_search::{dimacs, random};
use std::env;
use std::process::ExitCode;

/// Does what the mode of this name does with these words.
fn run_mode(rt: &HostRuntime, mode: &str, words: &[String]) -> Result<u8> {
    match mode {
        "tables" => tables::run(rt, words),
        "encoding" => encoding::run(rt, words),
        "parser" => bench_parser::run(rt, words),
        "circuits" => circuits::run(rt, words),
        "stages" => stages::run(rt, FolderLibrary::new(rt.clone()?), words),
        "dimacs" => dimacs::run(rt, words),
        "random" => random::run(rt, words),
        _ => print_usage(rt),
    }
}

/// Prints the usage, and gives its status.
fn print_usage(rt: &impl Print) -> Result<u8> {
    println!(rt;
        "usage: bench_alloyc tables|encoding|parser|circuits|stages|dimacs|random WORD.. [then ..]"
    )?;
    Ok(2)
}

/// Runs a mode with its words.
fn run_part(rt: &HostRuntime, words: &[String]) -> Result<u8> {
    match words.split_first() {
        Some((mode, rest)) => run_mode(rt, mode.as_str(), rest),
        None => print_usage(rt),
    }
}

fn main(rt: HostRuntime) -> Result<ExitCode> {
    let mut status = 0;
    let mut part = Vec::new(rt.alloc());
    for word in env::args(&rt)?.skip(1) {
        if word.as_str() == "then" {
            status = run_part(&rt, &part)?.max(status);
            part = Vec::new(rt.alloc());
        } else {
            part.push(word)?;
        }
    }
    status = run_part(&rt, &part)?.max(status);
    Ok(ExitCode::from(status))
}
