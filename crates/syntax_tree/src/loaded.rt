//! What an analysis reads: the texts of all modules, and the instances that they have.

ghost use Rattle.std.specs.Prelude.{◌+◌, ◌-◌, ◌^◌, ◌<◌, IsTrue};
ghost use Rattle.syntax_tree.specs.Instances.{are_closed, name_count, literal_count};

use crate::instance::{InstanceList, TextList};

/// All that an analysis reads: the texts, and the instances that they have.
///
/// Every number in it is in range, and each instance has as many arguments as its text has
/// parameters. The paragraphs, the declared names and the distinct string literals of all
/// instances together are fewer than 2^32 - 1, so that each sig, field and body has a number.
#[derive(Drop)]
pub struct Loaded {
    pub texts: TextList,
    pub instances: InstanceList,
    pub ghost in_range: { IsTrue (are_closed texts instances) },
    pub ghost countable: { name_count texts instances + literal_count texts instances < 2 ^ 32 - 1 },
}
