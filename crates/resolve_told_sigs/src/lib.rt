//! Whether a model says what the texts declare: each sig and field, each fact and each assertion; and whether each root of these is
//! read right.
#![tactic(auto)]

mod above;
mod claims;
mod fields;
mod integers;
mod kinds;
mod own;
mod says;
mod sigs;
mod table;
mod told;
mod typed;
mod walk;
mod words;

pub use integers::integers_of;
pub use says::{no_type, picks_of, says_alone, says_value};
pub use told::are_sigs_told;
pub use typed::same_columns;
