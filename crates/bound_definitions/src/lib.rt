//! The scopes of a command and the rules on them, as definitions (specs/).
//! With them stand the rules that give a sig its number (`known`), and what trees mention (`mention`).
#![tactic(auto)]

mod known;
mod mention;

pub use known::{
    Known, at_most, is_static_lone, is_static_one, is_string, or_else, own_of, placed, scope_of,
    sure, together,
};
pub use mention::Mention;
