//! The library that holds the five texts.

ghost use Rattle.std.specs.Prelude.{◌≡◌, ◌≢◌, Some, Ok, Err, IfOk, take, option_copied};
ghost use Rattle.base_types.specs.Causes.{FetchCause};
ghost use Rattle.base_types.specs.Texts.{Texts, Answers, text_in};
ghost use Rattle.base_library.specs.Embedded.{embedded_texts, more_texts};

use crate::texts::{BOOLEAN, INTEGER, ORDERING, RELATION, TERNARY};
use base_types::{Fetch, FetchFault, Library};
use std::alloc::{AllocError, Global};

/// The library of the five texts. It never fails.
#[derive(Drop)]
pub struct EmbeddedLibrary {}

impl EmbeddedLibrary {
    /// The library.
    pub fn new() -> EmbeddedLibrary {
        EmbeddedLibrary {}
    }
}

impl Library for EmbeddedLibrary {
    ghost holds = { λ _. Some embedded_texts };

    ghost faults = { λ _. 0 };

    fn fetch(&mut self, alloc: Global, name: &str, most: usize) -> Result<Fetch, FetchFault>
        ensures keeps { Some embedded_texts ≡ Some embedded_texts }
        ensures answer { (texts : Texts) (fetch : _) → Some embedded_texts ≡ Some texts →
            result ≡ Ok fetch → Answers texts name.now most fetch }
        ensures cause { FetchCause 0 0 result }

        // Want of memory is the only fault.
        ensures fault { result ≢ Err FetchFault.Failed }
    {
        match text_named(name) {
            Some(text) => Ok(Fetch::Found(front(alloc, text, most)?)),
            None => Ok(Fetch::Absent),
        }
    }
}

/// The first bytes of a text.
fn front(alloc: Global, text: &str, most: usize) -> Result<Vec<u8>, AllocError>
    ensures { IfOk result (λ bytes. bytes.items ≡ take most text.now) }
{
    let bytes = text.as_bytes();
    bytes[..most.min(bytes.len())].to_vec(alloc)
}

/// The text of this name.
fn text_named(name: &str) -> Option<&'static str>
    ensures { option_copied result ≡ text_in embedded_texts name.now }
{
    if "util/ordering.als" == name {
        Some(ORDERING)
    } else if "util/integer.als" == name {
        Some(INTEGER)
    } else {
        more_named(name)
    }
}

/// The same of the other three texts.
fn more_named(name: &str) -> Option<&'static str>
    ensures { option_copied result ≡ text_in more_texts name.now }
{
    if "util/boolean.als" == name {
        Some(BOOLEAN)
    } else if "util/relation.als" == name {
        Some(RELATION)
    } else if "util/ternary.als" == name {
        Some(TERNARY)
    } else {
        None
    }
}
