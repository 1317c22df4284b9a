//! A library of files, which are named by their paths.

ghost use Rattle.std.specs.Prelude.{◌≡◌, None};

use base_types::{Fetch, FetchFault, Library};
use std::alloc::Global;
use std::io::{ErrorKind, Read};
use std::rt::Files;
use std::{fs, io};

/// As many bytes are read at once.
const CHUNK: usize = 16_384;

/// The files that are named by their paths. Nothing is told of their contents.
///
/// A path at which no file is found is absent. Every other failure to open or read, want of memory aside, raises the count.
#[derive(Drop)]
pub struct FolderLibrary<R> {
    rt: R,
    faults: u64,
}

impl<R: Files + Drop> FolderLibrary<R> {
    /// The files that this runtime opens, which it keeps.
    pub fn new(rt: R) -> FolderLibrary<R> {
        FolderLibrary { rt, faults: 0 }
    }
}

impl<R: Files + Drop> Library for FolderLibrary<R> {
    ghost holds = { λ folder. None };

    ghost faults = { λ folder. folder.faults };

    fn fetch(&mut self, alloc: Global, name: &str, most: usize) -> Result<Fetch, FetchFault> {
        match open_and_read(&self.rt, alloc, name, most) {
            Ok(bytes) => Ok(Fetch::Found(bytes)),
            Err(ErrorKind::NotFound) => Ok(Fetch::Absent),
            Err(ErrorKind::OutOfMemory) => Err(FetchFault::Memory),
            Err(_) => {
                self.faults = self.faults.saturating_add(1);
                Err(FetchFault::Failed)
            }
        }
    }
}

/// The first bytes of a file. That no file is there is said of its opening alone.
fn open_and_read<R: Files>(
    rt: &R,
    alloc: Global,
    name: &str,
    most: usize,
) -> Result<Vec<u8>, ErrorKind> {
    let mut file = fs::open(rt, name).map_err(|fault| fault.kind())?;
    match read_front(&mut file, alloc, most).map_err(|fault| fault.kind()) {
        Err(ErrorKind::NotFound) => Err(ErrorKind::Other),
        read => read,
    }
}

/// Reads up to the end, or so many bytes.
fn read_front<F: Read>(file: &mut F, alloc: Global, most: usize) -> io::Result<Vec<u8>> {
    let mut bytes = Vec::new(alloc);
    let mut chunk = [0u8; CHUNK];
    while bytes.len() < most {
        let room = CHUNK.min(most - bytes.len());
        let count = file.read(&mut chunk[..room])?;
        if count == 0 {
            break;
        }
        bytes.extend_from_slice(&chunk[..count])?;
    }
    Ok(bytes)
}
