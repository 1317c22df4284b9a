//! The names of all modules: what each declares, what each sees, and what a name stands for.
#![tactic(auto)]

mod declared;
mod entries;
mod follow;
mod gather;
mod index;
mod links;
mod lookup;
mod numbers;
mod reach;
mod source;
mod table;
mod twice;

pub use gather::names;
pub use index::DeclaredList;
pub use source::{paragraph_at, place_in, text_of};
pub use table::{BodyEntry, Decl, Declared, FieldEntry, Link, Names, Namespace, SigEntry};
