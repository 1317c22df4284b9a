//! The mode `tables` runs tables of rows, and prints what the analyser answers to each: `TABLE ..`.
//!
//! A row is one line: its name, a colon, the words of a command line, and settings, each after a
//! semicolon. The libraries are one that holds the files of the settings and then the library that
//! the analyser brings along; the choosers are those of the analyser's program, and the sink has
//! ample room, as far as no setting says otherwise. Blank lines, and lines that begin with `#`,
//! are no rows.
//!
//! | Setting | Says |
//! |---|---|
//! | `file NAME PATH` | the library holds the file of this path under this name |
//! | `blanks NAME COUNT` | the library holds a text of so many blanks under this name |
//! | `read-fails N` | the library's call N fails |
//! | `write-fails N` | the sink's call N fails |
//! | `room N` | the sink has room for N bytes |
//! | `lying N` | there is one chooser, which always picks N |
//! | `libraries memory` | the library that the analyser brings along is left away |
//! | `show PART` | this part of the answer is printed, in place of the whole (see [`row::Show`]) |
//!
//! The last line says how many rows there were, and how many of them were answered by status 5: by want of memory, or since
//! a result failed the analyser's own test.

mod answer;
mod parts;
mod row;
mod tell;

use anyhow::Result;
use std::fs;
use std::rt::Files;

/// How many rows were run, and how many of them had no answer.
#[derive(Clone, Copy)]
struct Count {
    rows: usize,
    unanswered: usize,
}

/// Runs the rows of a table, and counts them with those before.
fn run_table(rt: &(impl Files + Print + AllocGlobal), table: &str, before: Count) -> Result<Count> {
    let mut count = before;
    let text = fs::read_to_string(rt, table)?;
    for line in text.lines() {
        if line.is_empty() || line.starts_with('#') {
            continue;
        }
        let row = row::read_row(rt.alloc(), line)?;
        let status = tell::tell_row(rt, &row)?;
        count.rows = count.rows.saturating_add(1);
        if status == 5 {
            count.unanswered = count.unanswered.saturating_add(1);
        }
    }
    Ok(count)
}

/// Runs the rows of each table that the words name.
pub fn run(rt: &(impl Files + Print + AllocGlobal), words: &[String]) -> Result<u8> {
    let mut count = Count {
        rows: 0,
        unanswered: 0,
    };
    for table in words {
        count = run_table(rt, table.as_str(), count)?;
    }
    println!(rt; "rows {}, with status 5: {}", count.rows, count.unanswered)?;
    Ok(0)
}
