//! What a name stands for in a model.

/// What a name stands for in a model.
#[derive(Clone, Copy, Debug, PartialEq, Eq, Drop)]
pub enum Target {
    /// The sig of that number.
    Sig(u32),
    /// The integers.
    Int,
    /// The field of that number.
    Field(u32),
    /// The predicate or function of that number.
    Body(u32),
}
