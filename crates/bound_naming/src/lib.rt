//! The naming is symmetry breaking: it says which of the lassos that differ in the names of atoms alone
//! is looked for.
//!
//! What atoms are called is no part of a model's meaning. Two atoms that follow one another can be
//! exchanged where that carries each upper bound into itself. The exchange makes of each tuple of the
//! table another one or the same, and so it pairs the table's variables. A lasso is canonical where for
//! each two such atoms, at the first of their first `NAMED_PAIRS` pairs on which it differs, it has the
//! earlier tuple (a lex-leader for each exchange of neighbours).
//!
//! - `spots`: an index, for each atom the tuples of the upper bounds that have it;
//! - `partners`: of these the ones that an exchange makes of a later tuple;
//! - `listing`: their variables, state by state;
//! - `neighbours`: which atoms the bounds don't tell apart, and a list of pairs for each two;
//! - `laws`: that values of the variables decide whether a lasso is canonical.
#![tactic(auto)]

pub mod laws;
pub mod listing;
pub mod neighbours;
pub mod pairs;
pub mod partners;
pub mod spots;

pub use laws::naming_is_decided;
pub use neighbours::{NAMED_PAIRS, all_pairs, have_sets};
pub use pairs::{Pair, PairList};
