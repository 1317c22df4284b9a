//! Runs the analyser once, as a row says.

use crate::tables::row::{Held, Origin, Row};
use anyhow::Result;
use base_library::EmbeddedLibrary;
use base_types::{Library, MemoryLibrary, MemorySink};
use cli_run::run_words;
use sat_decide::{Activity, Chooser, FirstFree, Lying};
use std::alloc::{AllocError, Global};
use std::fs;
use std::rt::Files;

/// Names with their texts.
pub type Shelf = Vec<(String, Vec<u8>)>;

/// The files of a row.
pub fn shelf_of(rt: &(impl Files + AllocGlobal), row: &Row) -> Result<Shelf> {
    let mut shelf = Vec::new(rt.alloc());
    for held in &row.files {
        let text = text_of(rt, held)?;
        shelf.push((String::from_str(rt.alloc(), held.name)?, text))?;
    }
    Ok(shelf)
}

/// The text of a file of a row: what stands at a path, or so many blanks.
fn text_of(rt: &(impl Files + AllocGlobal), held: &Held) -> Result<Vec<u8>> {
    Ok(match held.origin {
        Origin::Path(path) => fs::read(rt, path)?,
        Origin::Blanks(count) => vec![in rt.alloc(); b' '; count]?,
    })
}

/// Runs the words over these texts as the row says, and gives the status and the sink.
pub fn answer_to(
    alloc: Global,
    words: &str,
    shelf: Shelf,
    row: &Row,
) -> Result<(u8, MemorySink), AllocError> {
    let words = words_of(alloc, words)?;
    let memory = MemoryLibrary::new(shelf, row.failing_reads.to_vec(alloc)?);
    let mut libraries: Vec<Box<dyn Library>> = Vec::new(alloc);
    libraries.push(Box::new(alloc, memory)?)?;
    if row.brings_along {
        libraries.push(Box::new(alloc, EmbeddedLibrary::new())?)?;
    }
    let mut choosers: Vec<Box<dyn Chooser>> = Vec::new(alloc);
    match row.lying {
        Some(number) => choosers.push(Box::new(alloc, Lying::new(number))?)?,
        None => {
            choosers.push(Box::new(alloc, Activity::new(alloc))?)?;
            choosers.push(Box::new(alloc, FirstFree::new())?)?;
        }
    }
    let mut out = MemorySink::new(alloc, row.room, row.failing_writes.to_vec(alloc)?)?;
    let status = run_words(alloc, &words, &mut libraries, choosers, &mut out);
    Ok((status, out))
}

/// The words of a line.
fn words_of(alloc: Global, line: &str) -> Result<Vec<String>, AllocError> {
    let mut words = Vec::new(alloc);
    for word in line.split(' ') {
        words.push(String::from_str(alloc, word)?)?;
    }
    Ok(words)
}
