//! The top call does what the words ask for, and writes the answer by one call.

ghost use Rattle.std.specs.Prelude.{◌≡◌, map, string_bytes, vec_len};
ghost use Rattle.base_types.specs.Causes.{NoneFell};
ghost use Rattle.cli_words.specs.Settings.{fitting};
ghost use Rattle.cli_run.specs.Promises.{IsRightRun};
ghost use Rattle.cli_run.specs.Allowed.{Justified};

use crate::deliver::finish;
use crate::shelves::Shelves;
use crate::work::answer;
use base_types::{Library, Sink};
use cli_model::Answer;
use sat_decide::Chooser;
use std::alloc::{AllocError, Global};
use std::mem;

/// Does what the words ask for, writes the answer to the sink by one call, and gives the status.
///
/// The words are those of the command line, the program's name first. A name has the text that the
/// first library of the list with that name has. A mode that searches is directed by the chooser of
/// the number that the words name.
pub fn run_words<S: Sink>(
    alloc: Global,
    words: &[String],
    libraries: &mut Vec<Box<dyn Library>>,
    choosers: Vec<Box<dyn Chooser>>,
    out: &mut S,
) -> u8
    // The list keeps its libraries, and they hold what they held.
    ensures keeps { map holds libraries.new.items ≡ map holds libraries.old.items }
    // Every run keeps the promises of specs/Promises.antt.
    ensures right { IsRightRun (record {
      settings = fitting (vec_len choosers) (map string_bytes words.now);
      held = map holds libraries.old.items;
      faults_before = map faults libraries.old.items;
      faults_after = map faults libraries.new.items;
      got_before = S.got out.old;
      got_after = S.got out.new;
      write_faults_before = S.write_faults out.old;
      write_faults_after = S.write_faults out.new;
      status = result;
    }) }
{
    let answered = answer_from_boxes(alloc, words, choosers.len(), choosers, libraries);
    finish(alloc, answered, out)
}

/// The answer to these words from boxed libraries, where there are so many choosers.
fn answer_from_boxes(
    alloc: Global,
    words: &[String],
    count: usize,
    choosers: Vec<Box<dyn Chooser>>,
    libraries: &mut Vec<Box<dyn Library>>,
) -> Result<Answer, AllocError>
    ensures keeps { map holds libraries.new.items ≡ map holds libraries.old.items }
    ensures later { NoneFell (map faults libraries.old.items) (map faults libraries.new.items) }
    ensures allowed { Justified (fitting count (map string_bytes words.now))
        (map holds libraries.old.items) (map faults libraries.old.items)
        (map faults libraries.new.items) result }
{
    let mut shelves = Shelves {
        list: mem::replace(libraries, Vec::new(alloc)),
    };
    let answered = answer(alloc, words, count, choosers, &mut shelves);
    *libraries = shelves.list;
    answered
}
