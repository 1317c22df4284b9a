//! Prints what the analyser answers to a row.

use crate::tables::answer::{answer_to, shelf_of};
use crate::tables::parts::cut;
use crate::tables::row::{Row, Show};
use anyhow::{Context, Result};
use std::rt::Files;
use std::str;

/// Runs a row and prints its block: the name, the status and what the row shows. It gives the status.
pub fn tell_row(rt: &(impl Files + Print + AllocGlobal), row: &Row) -> Result<u8> {
    let shelf = shelf_of(rt, row)?;
    let (status, out) = answer_to(rt.alloc(), row.words, shelf, row)?;
    let text = str::from_utf8(out.got())?;
    println!(rt; "== {}", row.name)?;
    if row.shows.is_empty() {
        tell_whole(rt, status, text)?;
    } else {
        println!(rt; "status {status}")?;
        tell_shown(rt, row, text)?;
    }
    Ok(status)
}

/// Prints what a row shows of an answer.
fn tell_shown(rt: &(impl Files + Print + AllocGlobal), row: &Row, text: &str) -> Result<()> {
    for show in &row.shows {
        match show {
            Show::Status => {}
            Show::First(count) => tell_first(rt, text, *count)?,
            Show::Last => println!(rt; "{}", text.lines().last().unwrap_or(""))?,
            Show::Lemmas => println!(rt; "lemmas {}", cut(rt.alloc(), text)?.lemmas)?,
            Show::Verdict => tell_verdict(rt, row, text)?,
            Show::Replay => tell_replay(rt, row, text)?,
        }
    }
    Ok(())
}

/// Prints a status and all of an answer, with its number of bytes. A last line that doesn't end is ended.
fn tell_whole(rt: &impl Print, status: u8, text: &str) -> Result<()> {
    println!(rt; "status {status} bytes {}", text.len())?;
    print!(rt; "{text}")?;
    if !text.is_empty() && !text.ends_with('\n') {
        println!(rt; "")?;
    }
    Ok(())
}

/// Prints the first lines of an answer. What follows the words `p cnf` is left out.
fn tell_first(rt: &impl Print, text: &str, count: usize) -> Result<()> {
    for line in text.lines().take(count) {
        let line = if line.starts_with("p cnf ") {
            "p cnf"
        } else {
            line
        };
        println!(rt; "{line}")?;
    }
    Ok(())
}

/// Prints what mode `lrat` says of the two parts of an answer.
fn tell_verdict(rt: &(impl Print + AllocGlobal), row: &Row, text: &str) -> Result<()> {
    let alloc = rt.alloc();
    let parts = cut(alloc, text)?;
    let mut shelf = Vec::new(alloc);
    shelf.push((String::from_str(alloc, "f.cnf")?, parts.clauses))?;
    shelf.push((String::from_str(alloc, "p.lrat")?, parts.proof))?;
    let (status, out) = answer_to(alloc, "alloyc lrat f.cnf p.lrat", shelf, row)?;
    print!(rt; "lrat {status} {}", str::from_utf8(out.got())?)?;
    Ok(())
}

/// Prints the last line of what mode `replay` says of an answer.
fn tell_replay(rt: &(impl Files + Print + AllocGlobal), row: &Row, text: &str) -> Result<()> {
    let alloc = rt.alloc();
    let mut shelf = shelf_of(rt, row)?;
    let trace = (
        String::from_str(alloc, "t.txt")?,
        text.as_bytes().to_vec(alloc)?,
    );
    shelf.push(trace)?;
    let rest = row
        .words
        .strip_prefix("alloyc exec ")
        .context("only the answer of exec is replayed")?;
    let (file, options) = rest.split_once(' ').unwrap_or((rest, "--command 0"));
    let words = format!(in alloc; "alloyc replay {file} t.txt {options}")?;
    let (status, out) = answer_to(alloc, words.as_str(), shelf, row)?;
    let said = str::from_utf8(out.got())?;
    println!(rt; "replay {status} {}", said.lines().last().unwrap_or(""))?;
    Ok(())
}
