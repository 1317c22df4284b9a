//! Each instance has a label of its own, made from a path.

use crate::loading::Key;
use base_types::Name;
use std::alloc::{AllocError, Global};

/// A path with an alias after it.
pub fn longer_path(alloc: Global, path: &str, alias: &str) -> Result<Name, AllocError> {
    if path.is_empty() {
        return Name::copy(alloc, alias);
    }
    let mut longer = String::from_str(alloc, path)?;
    longer.push('/')?;
    longer.push_str(alias)?;
    Name::copy(alloc, longer.as_str())
}

/// The label of an instance with this path: the path, or the path with `$` and the least number from 2 on that makes it new.
pub fn new_label(alloc: Global, keys: &[Key], path: &str) -> Result<Name, AllocError> {
    if !is_taken(keys, path) {
        return Name::copy(alloc, path);
    }
    for number in 2..keys.len().saturating_add(2) {
        let label = format!(in alloc; "{path}${number}")?;
        if !is_taken(keys, label.as_str()) {
            return Name::copy(alloc, label.as_str());
        }
    }
    Err(AllocError)
}

/// Whether an instance has this label.
fn is_taken(keys: &[Key], label: &str) -> bool {
    keys.iter().any(|key| key.label.text() == label)
}
