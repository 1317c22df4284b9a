//! The meaning of resolved models: lassos, scopes, and the definitions of when a formula holds.
#![tactic(auto)]

pub mod lasso;
pub mod scope;
pub mod scopes;
pub mod target;

pub use lasso::{Lasso, State, make_lasso};
pub use scope::Environment;
pub use scopes::{Scopes, SigScope, SigScopeList};
pub use target::Target;
