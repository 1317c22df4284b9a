//! The analyser's program: libraries, choosers, a sink, one call, and the status that it gives.
#![tactic(auto)]

use base_host::{FolderLibrary, StdSink};
use base_library::EmbeddedLibrary;
use base_types::Library;
use cli_run::run_words;
use sat_decide::{Activity, Chooser, FirstFree};
use std::alloc::AllocError;
use std::io::ErrorKind;
use std::process::ExitCode;
use std::{env, io};

/// The status where there is no memory before the one call is made.
const NO_MEMORY: u8 = 5;

/// The status where the words can't be taken, as one that is no UTF-8.
const BAD_WORDS: u8 = 7;

fn main(rt: HostRuntime) -> ExitCode {
    let status = match words(&rt) {
        Ok(words) => run(&rt, &words).unwrap_or(NO_MEMORY),
        Err(ErrorKind::OutOfMemory) => NO_MEMORY,
        Err(_) => BAD_WORDS,
    };
    ExitCode::from(status)
}

/// The words of the command line, the program's name first.
fn words(rt: &HostRuntime) -> Result<Vec<String>, ErrorKind> {
    let words: io::Result<Vec<String>> = collect_words(rt);
    words.map_err(|fault| fault.kind())
}

fn collect_words(rt: &HostRuntime) -> io::Result<Vec<String>> {
    let mut words = Vec::new(rt.alloc());
    for word in env::args(rt)? {
        words.push(word)?;
    }
    Ok(words)
}

/// Makes the libraries, the choosers and the sink, and makes the call.
fn run(rt: &HostRuntime, words: &[String]) -> Result<u8, AllocError> {
    let alloc = rt.alloc();
    let mut libraries: Vec<Box<dyn Library>> = Vec::new(alloc);
    libraries.push(Box::new(alloc, FolderLibrary::new(rt.clone()?))?)?;
    libraries.push(Box::new(alloc, EmbeddedLibrary::new())?)?;
    let mut choosers: Vec<Box<dyn Chooser>> = Vec::new(alloc);
    choosers.push(Box::new(alloc, Activity::new(alloc))?)?;
    choosers.push(Box::new(alloc, FirstFree::new())?)?;
    let mut out = StdSink::new(rt.clone()?);
    Ok(run_words(alloc, words, &mut libraries, choosers, &mut out))
}
