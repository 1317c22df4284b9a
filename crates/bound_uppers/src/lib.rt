//! Upper bounds of the relations of a model, and the table of variables that they give.
//! An assignment of these variables stands for a lasso (`decoding`).
#![tactic(auto)]

pub mod counts;
pub mod decoding;
pub mod given;
pub mod kinds;
pub mod laws;
pub mod numbering;
pub mod numbers;
pub mod order;
pub mod places;
pub mod rows;
pub mod shortening;
pub mod sums;
pub mod table;
pub mod uppers;

pub use decoding::decode;
pub use laws::{lassos_unroll, one_lasso_is_decoded, rows_rise};
pub use numbering::layout;
pub use places::{Cells, Layout};
pub use shortening::shortest;
pub use table::{Bound, BoundList, Bounds};
pub use uppers::bounds;
