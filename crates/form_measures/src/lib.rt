//! What the rules of scopes ask of formulas and expressions once calls are written out.
//! That is how deep they are, how many past operators they nest, and which numbers stand in them.
#![tactic(auto)]

mod bodies;
mod forms;
mod levels;
mod measure;
mod mentions;
mod scope;
mod spot;
mod weight;

pub use bodies::{Summaries, is_expr_over, is_formula_over, summaries};
pub use forms::Measure;
pub use measure::Summary;
pub use mentions::{add_body, add_expr, add_formula};
pub use scope::Named;
pub use spot::{earliest, with_place, with_some_place};
pub use weight::{Use, Weight};
