//! A set of clauses, all to be true together, with the number of their variables.

ghost use Rattle.std.specs.Prelude.{All};
ghost use Rattle.sat_dimacs.specs.Literal.{IsWithin};

use crate::clause::ClauseList;

/// Clauses over the variables from 1 to `variables`, which are to be true together.
///
/// Each literal's variable is one of them.
#[derive(Debug, Drop)]
pub struct Cnf {
    pub variables: u64,
    pub clauses: ClauseList,
    ghost within: { All (IsWithin variables) clauses },
}
