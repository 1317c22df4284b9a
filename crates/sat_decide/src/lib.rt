//! The decision heuristic: which literal a search makes true where nothing is forced.
//!
//! A search asks its [`Chooser`] for a literal whenever nothing is forced. Nothing is promised of
//! what a chooser picks: a search has to answer rightly whatever it is told.
#![tactic(auto)]

mod activity;
mod boxed;
mod chooser;
mod first_free;
mod heap;
mod lying;
mod picks;

pub use activity::Activity;
pub use boxed::Boxed;
pub use chooser::Chooser;
pub use first_free::FirstFree;
pub use lying::Lying;
