//! Whether a resolved formula or expression says what the text's does.
#![tactic(auto)]

mod leaves;
mod names;
mod opened;
mod operators;
mod part;
mod place;
mod said;
mod scope;
mod variables;
mod walk;

pub use names::{is_target, text_alone};
pub use place::{OwnField, Site};
pub use said::{says_formula, says_set};
pub use scope::Locals;
