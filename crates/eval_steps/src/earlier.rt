//! The atoms that were chosen for the variables before one in its list, and `disj`.

ghost use Rattle.std.specs.Prelude.{◌↔◌, IsTrue};
ghost use Rattle.core_meaning.specs.Meaning.{IsApart};
ghost use Rattle.eval_steps.specs.Judged.{earlier_list};

/// The atoms that were chosen for the earlier variables of a list, the latest first.
#[derive(Clone, Copy)]
pub enum Earlier<'a> {
    /// None yet.
    Start,
    /// The latest atom, and those before it.
    Then(u32, &'a Earlier<'a>),
}

/// Whether an atom differs from the latest so many of the earlier ones.
pub fn is_apart(earlier: &Earlier, apart: u32, atom: u32) -> bool
    ensures { IsTrue result ↔ IsApart apart atom (earlier_list earlier.now) }
{
    if apart == 0 {
        return true;
    }
    match earlier {
        Earlier::Start => true,
        Earlier::Then(other, rest) => *other != atom && is_apart(*rest, apart - 1, atom),
    }
}
