//! A file is asked for as a whole.

ghost use Rattle.std.specs.Prelude.{◌≡◌, ◌+◌, ◌<◌, ◌≤◌, ◌^◌, Ok, cond, nat_le, length};
ghost use Rattle.base_types.specs.Causes.{NoneFell};
ghost use Rattle.cli_model.specs.Files.{IsFile, at_start};

use base_types::{Fetch, FetchFault, Libraries, Position, Refusal, Rule};
use std::alloc::{AllocError, Global};

/// What came of asking for a file.
#[derive(Drop)]
pub enum File {
    /// Its whole text.
    Whole(Vec<u8>),
    /// It breaks a rule as a whole.
    Broken(Rule),
    /// A library failed.
    Failed,
}

/// Asks for a file of at most so many bytes.
pub fn whole_file<L: Libraries>(
    alloc: Global,
    libraries: &mut L,
    name: &str,
    most: usize,
) -> Result<File, AllocError>
    requires { most + 1 < 2 ^ 64 }
    ensures keeps { L.told libraries.new ≡ L.told libraries.old }
    ensures later { NoneFell (L.counts libraries.old) (L.counts libraries.new) }
    ensures short { (text : _) → result ≡ Ok (File.Whole text) → length text.items ≤ most }
    ensures file { (file : _) → result ≡ Ok file →
        IsFile (L.told libraries.old) name.now most (L.counts libraries.old)
        (L.counts libraries.new) file }
{
    match libraries.fetch_first(alloc, name, most + 1) {
        Ok(Fetch::Absent) => Ok(File::Broken(Rule::NoModule)),
        Ok(Fetch::Found(text)) => Ok(within(text, most)),
        Err(FetchFault::Failed) => Ok(File::Failed),
        Err(FetchFault::Memory) => Err(AllocError),
    }
}

/// The text, unless it is over the limit.
fn within(text: Vec<u8>, most: usize) -> File
    ensures { result ≡ cond (nat_le (length text.items) most) (File.Whole text)
        (File.Broken Rule.LargeFile) }
{
    if text.len() <= most {
        File::Whole(text)
    } else {
        File::Broken(Rule::LargeFile)
    }
}

/// A refusal of a text as a whole.
pub fn at_start(rule: Rule) -> Refusal
    ensures { result ≡ at_start rule }
{
    Refusal {
        rule,
        place: Position {
            module: 0,
            line: 1,
            column: 1,
        },
    }
}
