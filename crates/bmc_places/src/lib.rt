//! What is made at all places of windows of rows, sets and integers that stand there.
//!
//! A row has a node for each place; a list of numbers says which set of a store stands at each place.
#![tactic(auto)]

pub mod choosing;
pub mod gathering;
pub mod members;
pub mod numbers;
pub mod operators;
pub mod rests;
pub mod round_rows;
pub mod rounds;
pub mod rows;
pub mod sums;
pub mod tests_of_sets;
pub mod totals;

pub use choosing::chosen_sets;
pub use gathering::{Choice, gathered_sets};
pub use members::{Found, cut_to, found_in, place_times};
pub use operators::made_sets;
pub use rests::{rest_sets, word_row};
pub use sums::{are_rising, sum_places};
pub use tests_of_sets::{equal_row, inside_row, tested_row};
