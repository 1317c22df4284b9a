//! Libraries in a list are asked in order: the first that has a name gives its text.

ghost use Rattle.std.specs.Prelude.{◌≡◌, ℕ, List, Option, Ok, map, Some};
ghost use Rattle.base_types.specs.Texts.{Texts, AnswersFirst};
ghost use Rattle.base_types.specs.Causes.{ListCause};

use crate::{Fetch, FetchFault, Library};
use std::alloc::Global;

/// Libraries that are asked in order: a name has the text that the first of them with that name has.
///
/// The layers that read texts take any such list. A crate that has its libraries as boxed objects wraps them in a type of
/// its own.
pub trait Libraries {
    /// What each of them holds, where it tells. No call changes it.
    ghost told: { Self → List (Option Texts) };

    /// How often each of them has failed.
    ghost counts: { Self → List ℕ };

    /// The first `most` bytes of the text of this name. The libraries after the one that answers aren't asked.
    fn fetch_first(&mut self, alloc: Global, name: &str, most: usize) -> Result<Fetch, FetchFault>
        ensures keeps { told self.new ≡ told self.old }
        ensures answer { (texts : List Texts) (fetch : _) → told self.old ≡ map Some texts →
            result ≡ Ok fetch → AnswersFirst texts name.now most fetch }
        ensures cause { ListCause (counts self.old) (counts self.new) result };
}

impl<L: Library> Libraries for Vec<L> {
    ghost told = { λ list. map L.holds list.items };

    ghost counts = { λ list. map L.faults list.items };

    fn fetch_first(&mut self, alloc: Global, name: &str, most: usize) -> Result<Fetch, FetchFault> {
        first_of(alloc, self, name, most)
    }
}

/// Asks the libraries in order, up to the first that has the name.
fn first_of<L: Library>(
    alloc: Global,
    libraries: &mut Vec<L>,
    name: &str,
    most: usize,
) -> Result<Fetch, FetchFault>
    ensures keeps { map L.holds libraries.new.items ≡ map L.holds libraries.old.items }
    ensures answer { (texts : List Texts) (fetch : _) →
        map L.holds libraries.old.items ≡ map Some texts → result ≡ Ok fetch →
        AnswersFirst texts name.now most fetch }
    ensures cause { ListCause (map L.faults libraries.old.items) (map L.faults libraries.new.items)
        result }
{
    for i in 0..libraries.len() {
        match libraries[i].fetch(alloc, name, most) {
            Ok(Fetch::Absent) => {}
            Ok(Fetch::Found(bytes)) => return Ok(Fetch::Found(bytes)),
            Err(fault) => return Err(fault),
        }
    }
    Ok(Fetch::Absent)
}
