//! Laws of loading: a text has one module, what is loaded of a root is one model, and its instances are the least set.
//!
//! `load_modules` says which module a text has: one that its tokens spell, that keeps the rules of
//! the grammar, and whose places are those of the tokens. The first law says that there is no
//! other. It also says which texts and instances are loaded of a root, where their opens lead, and
//! how they are numbered and labelled. The second law says that no others are so. And it defines the
//! instances of a root: the least set of texts with arguments that holds the root and is closed
//! under opens. The third law says that the loaded instances are just these, each once. The functions
//! do nothing; a caller that needs a law calls it.
#![tactic(auto)]

ghost use Rattle.load_laws.specs.Least.{InstancesAreLeast};
ghost use Rattle.load_laws.specs.One.{TextsHaveOneModule};
ghost use Rattle.load_laws.specs.Unique.{LoadsAreUnique};

use syntax_single::{modules_are_single, tokens_have_one_module};

/// A law: a text of this number has at most one module.
pub fn texts_have_one_module()
    ensures { TextsHaveOneModule }
{
    tokens_have_one_module();
}

/// A law: what the libraries tell of a root and its tree has at most one list of texts with one
/// list of instances.
pub fn loads_are_unique()
    ensures { LoadsAreUnique }
{
    texts_have_one_module();
}

/// A law: the instances of a loaded model are those of its root, each of them once.
pub fn instances_are_least()
    ensures { InstancesAreLeast }
{
    modules_are_single();
}
