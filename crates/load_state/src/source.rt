//! A text that was read is kept with its tree.

ghost use Rattle.std.specs.Prelude.{◌≡◌, ◌≤◌, length};
ghost use Rattle.syntax_tree.specs.Instances.{literals_of};
ghost use Rattle.load_state.specs.Opens.{enums_of};
ghost use Rattle.load_state.specs.Counts.{TestsAll};
ghost use Rattle.load_state.specs.Sigs.{sigs_of, parameters_of};
ghost use Rattle.std.specs.HashMap.{get_by_text};

use crate::table::Table;
use syntax_tree::Text;

/// A text that was read.
#[derive(Drop)]
pub struct Source {
    pub text: Text,
    pub table: Table,
    /// How many tokens it has.
    pub tokens: usize,
    pub ghost few: { length (literals_of text.tree) ≤ tokens },
    pub ghost implies: { table.enums.items ≡ enums_of text.tree },
    pub ghost declares: { table.declared.items ≡ sigs_of text.tree },
    pub ghost tells: { TestsAll (parameters_of text.tree) (sigs_of text.tree) (get_by_text table.known) },
}
