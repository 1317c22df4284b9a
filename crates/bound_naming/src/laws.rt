//! A law: values of the variables decide whether a lasso is canonical.

ghost use Rattle.bound_naming.specs.Decided.{NamingIsDecided};

/// A law: values that tell of a lasso favour the earlier in the pairs of all neighbours just where
/// the lasso is canonical.
pub fn naming_is_decided()
    ensures { NamingIsDecided }
{}
