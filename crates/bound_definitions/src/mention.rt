//! What a tree mentions that the rules on scopes ask about.

use core_tree::Origin;

/// A number or a call that stands in a tree.
#[derive(Clone, Copy, Debug, PartialEq, Eq, Drop)]
pub enum Mention {
    /// A number, with its place.
    Number(i64, Origin),
    /// A call of the body of this number.
    Call(u32),
}
