//! Laws of the meaning of models: on a lasso it is decided.
//!
//! Formulas are read at infinitely many positions, and what they mean is told by sets of tuples. The laws say that on a lasso
//! each formula is true or false at each position, and that the declarations of a model hold there or don't. The functions do
//! nothing; a caller that needs a law calls its function.
#![tactic(auto)]

ghost use Rattle.core_decided.specs.Decided.{FormulasAreDecided, DeclarationsAreDecided, ExpressionsAreListed};

/// A law: every formula of a model is true or false at each position of a lasso.
pub fn formulas_are_decided()
    ensures { FormulasAreDecided }
{}

/// A law: every expression of a model has a list of its tuples at each position of a lasso.
pub fn expressions_are_listed()
    ensures { ExpressionsAreListed }
{}

/// A law: the declarations of a model hold at each position of a lasso or don't.
pub fn declarations_are_decided()
    ensures { DeclarationsAreDecided }
{}
