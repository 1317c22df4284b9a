//! Types of expressions: sets of rows of sigs, how operators make them, and the types of bounds.
//!
//! In the rows of a bound a `var` sig stands as its nearest ancestor that isn't `var`, so that
//! they hold at every position.
#![tactic(auto)]

mod columns;
mod distinct;
mod member;
mod rows;

pub use columns::Columns;
pub use member::{Member, meet};
pub use rows::{Row, Way};

mod bound;
mod ground;
mod static_rows;

pub use bound::static_type;
pub use ground::{Ground, static_sig};
pub use static_rows::model_rows;
