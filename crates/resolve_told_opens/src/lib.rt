//! Whether the sigs of a model that opens give to `exactly` parameters are those that its texts say: a test on the model, whose
//! "yes" is proved to mean just that.
#![tactic(auto)]

mod gifts;
mod places;
mod told;

pub use told::are_opens_told;
