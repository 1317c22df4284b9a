//! Shows a trace as a picture, a page, or data: `trace_view FORMAT [FILE]`.
//!
//! It reads the text of a trace from FILE, or from the standard input where there is no FILE or it is `-`, and writes it in
//! FORMAT: `dot`, `html`, `xml` or `json`. What goes wrong is told by one line on the standard error, and then nothing is
//! written: see docs/FORMATS.md.
#![tactic(auto)]

mod input;
mod words;

use base_host::{FolderLibrary, StdSink};
use base_types::limits::FILE_BYTES;
use base_types::{Fetch, FetchFault, Library, Sink};
use input::read_front;
use std::alloc::{AllocError, Global};
use std::io::ErrorKind;
use std::process::ExitCode;
use std::{env, io};
use view_pictures::{write_dot, write_html, write_json, write_xml};
use view_trace::{Trace, TraceFault, read_trace};
use words::{Format, Request, request_of};

/// The status where the words give no format.
const USAGE: u8 = 2;

/// The status where the text is no trace, or is too long.
const REFUSED: u8 = 3;

/// The status where the text can't be read.
const UNREAD: u8 = 4;

/// The status where memory is wanting.
const NO_MEMORY: u8 = 5;

/// The status where the output can't be written.
const UNWRITTEN: u8 = 6;

/// The status where the words can't be taken, as one that is no UTF-8.
const BAD_WORDS: u8 = 7;

/// Why there is no text to be read.
#[derive(Clone, Copy, Debug, PartialEq, Eq)]
enum InputFault {
    /// It can't be read.
    Failed,
    /// Memory was wanting.
    Memory,
}

fn main(rt: HostRuntime) -> ExitCode {
    let status = match collect_words(&rt) {
        Ok(words) => run(&rt, words.as_slice()),
        Err(fault) => match fault.kind() {
            ErrorKind::OutOfMemory => NO_MEMORY,
            _ => BAD_WORDS,
        },
    };
    ExitCode::from(status)
}

/// The words of the command line, the program's name first.
fn collect_words(rt: &HostRuntime) -> io::Result<Vec<String>> {
    let mut words = Vec::new(rt.alloc());
    for word in env::args(rt)? {
        words.push(word)?;
    }
    Ok(words)
}

/// Does what the words ask for, and gives the status.
fn run(rt: &HostRuntime, words: &[String]) -> u8 {
    let Some(request) = request_of(words) else {
        let _ = eprintln!(rt; "usage: trace_view dot|html|xml|json [FILE]");
        return USAGE;
    };
    match text_of(rt, request.file) {
        Ok(text) => show(rt, &request, text.as_slice()),
        Err(InputFault::Memory) => NO_MEMORY,
        Err(InputFault::Failed) => {
            let name = request.file;
            let _ = eprintln!(rt; "fault read {name}");
            UNREAD
        }
    }
}

/// The text of a file, or of the standard input. There is one byte more than a text may have where it is longer.
fn text_of(rt: &HostRuntime, file: &str) -> Result<Vec<u8>, InputFault> {
    if file == "-" {
        input_text(rt)
    } else {
        file_text(rt, file)
    }
}

/// The text of the standard input.
fn input_text(rt: &HostRuntime) -> Result<Vec<u8>, InputFault> {
    let mut reader = rt.reader();
    match read_front(&mut reader, rt.alloc(), FILE_BYTES + 1) {
        Ok(text) => Ok(text),
        Err(fault) => match fault.kind() {
            ErrorKind::OutOfMemory => Err(InputFault::Memory),
            _ => Err(InputFault::Failed),
        },
    }
}

/// The text of a file.
fn file_text(rt: &HostRuntime, file: &str) -> Result<Vec<u8>, InputFault> {
    let Ok(own) = rt.clone() else {
        return Err(InputFault::Memory);
    };
    let mut folder = FolderLibrary::new(own);
    match folder.fetch(rt.alloc(), file, FILE_BYTES + 1) {
        Ok(Fetch::Found(text)) => Ok(text),
        Ok(Fetch::Absent) => Err(InputFault::Failed),
        Err(FetchFault::Memory) => Err(InputFault::Memory),
        Err(FetchFault::Failed) => Err(InputFault::Failed),
    }
}

/// Reads a trace and writes it, and gives the status.
fn show(rt: &HostRuntime, request: &Request<'_>, text: &[u8]) -> u8 {
    let name = request.file;
    if text.len() > FILE_BYTES {
        let _ = eprintln!(rt; "refused S04 {name}:1:1");
        return REFUSED;
    }
    match read_trace(rt.alloc(), text) {
        Ok(trace) => write(rt, request.format, &trace),
        Err(TraceFault::Memory) => NO_MEMORY,
        Err(TraceFault::BadTrace { line }) => {
            let _ = eprintln!(rt; "refused C21 {name}:{line}");
            REFUSED
        }
    }
}

/// A trace as a text of this format.
fn written(alloc: Global, format: Format, trace: &Trace) -> Result<Vec<u8>, AllocError> {
    match format {
        Format::Dot => write_dot(alloc, trace),
        Format::Html => write_html(alloc, trace),
        Format::Xml => write_xml(alloc, trace),
        Format::Json => write_json(alloc, trace),
    }
}

/// Writes a trace, once its text is finished, and gives the status.
fn write(rt: &HostRuntime, format: Format, trace: &Trace) -> u8 {
    let Ok(text) = written(rt.alloc(), format, trace) else {
        return NO_MEMORY;
    };
    let Ok(own) = rt.clone() else {
        return NO_MEMORY;
    };
    let mut sink = StdSink::new(own);
    match sink.write(text.as_slice()) {
        Ok(()) => 0,
        Err(_) => UNWRITTEN,
    }
}
