//! The readings of one root: which candidate each of its names stands for.
//!
//! A name of a text may stand for several things: sigs, fields, predicates, functions. What tells
//! them apart is what stands around the name. So names are settled root by root. Roots are
//! comparisons, multiplicity tests, bounds, values of `let`, the expressions of a function and of
//! `sum`, and calls of predicates ([`RootPlace`] says where a root stands). A root inside another,
//! such as the bound in a comprehension, is settled by itself; in the outer one its form is
//! [`Part::Known`] by then.
//!
//! A choice has, for each name of the root in turn, the number of a candidate. Under a choice a
//! part has a [`Meaning`]: it is a set with its type, a formula, or a body that waits for
//! arguments. Or it has none, where an operand hasn't the kind or the columns that its operator
//! needs. A choice is right where the whole root has a meaning in its place. It is relevant where
//! moreover no join, meet, restriction, comparison or argument has two types that aren't empty and
//! have nothing in common.
//!
//! The reading is the one right choice. Where there is not exactly one, it is the one relevant
//! choice. Where there is not exactly one of these either, it is the only one that names nothing
//! of the integer module that is opened implicitly, among the relevant ones, or among the right
//! ones where none is relevant. Else a root with right choices is ambiguous (`IsReading` in
//! specs/Readings.antt).
//!
//! The right choices are found from the leaves up, as a list of choices with their meanings for
//! each part (`found`). A name has one for each candidate. An operator takes those of its
//! operands, each with each, and keeps the ones under which it is right. So a choice that makes a
//! part wrong is dropped at that part, and the rest of the root is never judged under it. The list
//! at the top has just the right choices of the root, from which the reading is picked (`decide`).
//! A root whose names have more than 4,096 choices together isn't judged.
#![tactic(auto)]

mod choices;
mod meaning;
mod operands;
mod operate;
mod part;
mod root;

pub use meaning::{Meaning, What};
pub use part::{Binary, Decision, Found, Multiplicity, Outcome, Part, RootPlace, Typing, Unary};
pub use root::decide;
