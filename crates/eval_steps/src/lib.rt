//! What a walk over expressions and formulas is made of.
//! That is what they are judged by, sets that were found, choices of atoms, steps over trees and
//! positions, and sides of arrows.
#![tactic(auto)]

pub mod earlier;
pub mod held;
pub mod judge;
pub mod parts;
pub mod rows;
pub mod sides;
pub mod steps;

pub use earlier::{Earlier, is_apart};
pub use held::{Held, copy_of, set_of};
pub use judge::{Judge, claim_place, claim_repeats, judge_of, limit, term_place, term_repeats};
pub use parts::{
    atom_at, calculated, combined, compared, counted, field_of, has, identity_at, integers_at,
    is_equal, is_inside, multiplied, nothing, one_atom, one_integer, relation_at, transformed,
    universe_at,
};
pub use rows::{First, Goal, Row, add_rows, chosen_set, first_row, sum_of_rows};
pub use sides::{Arrow, arrow_of, asks, heads, is_long, tails};
pub use steps::{DEEP, after, deeper, next_name, says};
