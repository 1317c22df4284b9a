//! A list of boxed libraries is asked in order.

ghost use Rattle.std.specs.Prelude.{◌≡◌, List, map, Some, Ok};
ghost use Rattle.base_types.specs.Texts.{Texts, Answers, AnswersFirst};
ghost use Rattle.base_types.specs.Causes.{FetchCause, ListCause};

use base_types::{Fetch, FetchFault, Libraries, Library};
use std::alloc::Global;

/// The list of boxed libraries.
#[derive(Drop)]
pub struct Shelves {
    pub list: Vec<Box<dyn Library>>,
}

impl Libraries for Shelves {
    ghost told = { λ shelves. map (λ b. (Library-box b).holds b.value) shelves.list.items };

    ghost counts = { λ shelves. map (λ b. (Library-box b).faults b.value) shelves.list.items };

    fn fetch_first(&mut self, alloc: Global, name: &str, most: usize) -> Result<Fetch, FetchFault> {
        fetch_first(alloc, &mut self.list, name, most)
    }
}

/// Asks one library.
fn ask(
    alloc: Global,
    library: &mut Box<dyn Library>,
    name: &str,
    most: usize,
) -> Result<Fetch, FetchFault>
    ensures keeps { holds library.new ≡ holds library.old }
    ensures answer { (texts : Texts) (fetch : _) → holds library.old ≡ Some texts →
        result ≡ Ok fetch → Answers texts name.now most fetch }
    ensures cause { FetchCause (faults library.old) (faults library.new) result }
{
    library.fetch(alloc, name, most)
}

/// Asks the libraries in order, up to the first that has the name.
fn fetch_first(
    alloc: Global,
    libraries: &mut Vec<Box<dyn Library>>,
    name: &str,
    most: usize,
) -> Result<Fetch, FetchFault>
    ensures keeps { map holds libraries.new.items ≡ map holds libraries.old.items }
    ensures answer { (told : List Texts) (fetch : _) →
        map holds libraries.old.items ≡ map Some told → result ≡ Ok fetch →
        AnswersFirst told name.now most fetch }
    ensures cause { ListCause (map faults libraries.old.items) (map faults libraries.new.items)
        result }
{
    for i in 0..libraries.len() {
        match ask(alloc, &mut libraries[i], name, most) {
            Ok(Fetch::Absent) => {}
            Ok(Fetch::Found(bytes)) => return Ok(Fetch::Found(bytes)),
            Err(fault) => return Err(fault),
        }
    }
    Ok(Fetch::Absent)
}
