//! What formulas are judged in: a model with its scopes and a lasso.
//! These give a world of the meaning, its sets, the window of its lasso, and what names stand for.
#![tactic(auto)]

pub mod names;
pub mod sets;
pub mod setting;
pub mod sizes;

pub use names::{Meant, look_up};
pub use setting::{Setting, make_setting};
pub use sizes::integer_count;
