//! A row of a table: a name, the words of a command line, and settings.

use anyhow::{Context, Result, bail};
use std::alloc::Global;

/// The room of a sink where no setting says otherwise.
const ROOM: usize = 33_554_432;

/// A part of an answer that is printed.
#[derive(Clone, Copy, Drop)]
pub enum Show {
    /// `status`: the status alone.
    Status,
    /// `first N`: the first N lines. A header of clauses is cut to its two words.
    First(usize),
    /// `last`: the last line.
    Last,
    /// `lemmas`: how many lines the proof has.
    Lemmas,
    /// `verdict`: the status and the text of mode `lrat` on the two parts of the answer.
    Verdict,
    /// `replay`: the status and the last line of mode `replay` on the answer.
    Replay,
}

/// A text in the library: the name under which it is held, and where it comes from.
#[derive(Clone, Copy, Drop)]
pub struct Held<'a> {
    pub name: &'a str,
    pub origin: Origin<'a>,
}

/// Where a text comes from.
#[derive(Clone, Copy, Drop)]
pub enum Origin<'a> {
    /// The file of this path.
    Path(&'a str),
    /// So many blanks.
    Blanks(usize),
}

/// A run of the analyser, and what is printed of its answer: the whole where `shows` is empty.
#[derive(Drop)]
pub struct Row<'a> {
    pub name: &'a str,
    pub words: &'a str,
    pub files: Vec<Held<'a>>,
    pub failing_reads: Vec<u64>,
    pub failing_writes: Vec<u64>,
    pub room: usize,
    pub lying: Option<i64>,
    pub brings_along: bool,
    pub shows: Vec<Show>,
}

/// The row that a line spells.
pub fn read_row(alloc: Global, line: &str) -> Result<Row<'_>> {
    let (name, rest) = line.split_once(": ").context("a row has no colon")?;
    let mut pieces = rest.split("; ");
    let mut row = Row {
        name,
        words: pieces.next().unwrap_or(""),
        files: Vec::new(alloc),
        failing_reads: Vec::new(alloc),
        failing_writes: Vec::new(alloc),
        room: ROOM,
        lying: None,
        brings_along: true,
        shows: Vec::new(alloc),
    };
    for piece in pieces {
        add_setting(&mut row, piece)?;
    }
    Ok(row)
}

/// Adds a setting to a row.
fn add_setting<'a>(row: &mut Row<'a>, setting: &'a str) -> Result<()> {
    let (key, value) = setting.split_once(' ').context("a setting has no value")?;
    match key {
        "file" => {
            let (name, path) = value.split_once(' ').context("a file has no path")?;
            let origin = Origin::Path(path);
            row.files.push(Held { name, origin })?;
        }
        "blanks" => {
            let (name, count) = value.split_once(' ').context("blanks have no count")?;
            let origin = Origin::Blanks(count.parse::<usize>()?);
            row.files.push(Held { name, origin })?;
        }
        "read-fails" => row.failing_reads.push(value.parse::<u64>()?)?,
        "write-fails" => row.failing_writes.push(value.parse::<u64>()?)?,
        "room" => row.room = value.parse::<usize>()?,
        "lying" => row.lying = Some(value.parse::<i64>()?),
        "libraries" => row.brings_along = value != "memory",
        "show" => row.shows.push(read_show(value)?)?,
        _ => bail!("unknown setting {key}"),
    }
    Ok(())
}

/// The part that a setting names.
fn read_show(value: &str) -> Result<Show> {
    let (kind, count) = value.split_once(' ').unwrap_or((value, ""));
    Ok(match kind {
        "status" => Show::Status,
        "first" => Show::First(count.parse::<usize>()?),
        "last" => Show::Last,
        "lemmas" => Show::Lemmas,
        "verdict" => Show::Verdict,
        "replay" => Show::Replay,
        _ => bail!("unknown part {kind}"),
    })
}
