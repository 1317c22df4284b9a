//! Laws of the meaning of models, each in the clauses of an empty function; a caller calls it.
//!
//! They say that an expression has one number of tuples and stands for one integer, that what a
//! lasso satisfies is told by the sequence of states that it shows, and that fields lie in their
//! upper bounds where the declarations of a model hold.
#![tactic(auto)]

ghost use Rattle.core_laws.specs.Integers.{CountsAreUnique, NumbersAreUnique};

/// An expression has one number of tuples at a position, and stands for one integer there, in every
/// environment that gives atoms to names.
pub fn integers_are_unique()
    ensures counts { CountsAreUnique }
    ensures numbers { NumbersAreUnique }
{}

ghost use Rattle.core_laws.specs.Sequences.{SameSatisfied};

/// A law: lassos that show the same sequence satisfy the same models, with any facts, and commands.
pub fn same_sequences_satisfy_the_same()
    ensures { SameSatisfied }
{}

ghost use Rattle.core_laws.specs.Typed.{FieldsLieInBounds};

/// A law: where a lasso keeps the scopes of a model and its declarations hold at each position, each
/// field of a sig has only tuples of its upper bound.
pub fn fields_lie_in_their_bounds()
    ensures { FieldsLieInBounds }
{}

ghost use Rattle.core_laws.specs.Typed.{ColumnsHaveAtoms, SigsHaveRows, FieldsHaveRows, SigsOfOneAtom};

/// A law: under the same premises the atoms of sigs and of fields are those that the sigs of a row of
/// their types have, each at some position; these are atoms of the top-level sigs above, and two sigs
/// that have an atom lie one under the other.
pub fn relations_have_rows()
    ensures atoms { ColumnsHaveAtoms }
    ensures sigs { SigsHaveRows }
    ensures fields { FieldsHaveRows }
    ensures one_atom { SigsOfOneAtom }
{}
