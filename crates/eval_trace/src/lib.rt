//! What a model says of a lasso, judged by its meaning alone.
//! That is the truth of a formula, the tuples of an expression, the first position at which a
//! declaration fails, and whether scopes are kept.
#![tactic(auto)]

pub mod declarations;
pub mod evaluate;
pub mod fields;
pub mod sigs;

pub use declarations::declared;
pub use eval_scopes::keeps;
pub use evaluate::{holds, tuples};
