//! Libraries of a few files, some of whose calls fail.

use base_types::MemoryLibrary;
use std::alloc::{AllocError, Global};

/// The text of a module that orders a sig.
pub const ORDERING: &str =
    "module util/ordering[exactly elem]\nprivate one sig Ord { First: set elem }\n";

/// A library of these files.
pub fn library(alloc: Global, files: &[(&str, &str)]) -> Result<MemoryLibrary, AllocError> {
    let mut list = Vec::new(alloc);
    for (name, text) in files {
        list.push((
            String::from_str(alloc, name)?,
            text.as_bytes().to_vec(alloc)?,
        ))?;
    }
    Ok(MemoryLibrary::new(list, Vec::new(alloc)))
}

/// A list of one library.
pub fn one(alloc: Global, files: &[(&str, &str)]) -> Result<Vec<MemoryLibrary>, AllocError> {
    let mut libraries = Vec::new(alloc);
    libraries.push(library(alloc, files)?)?;
    Ok(libraries)
}
