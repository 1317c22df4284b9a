//! Skolemisation of a command's leading `some` over sets and relations.
//!
//! `run p` asks for a lasso in which there are values of the predicate's parameters for which its
//! body holds: the parameters stand under an implicit `some`. Where a parameter is an atom, that
//! `some` is a quantifier of the language, and stays one. Where it is a set or a relation, the
//! quantifier is of higher order, and to ground it would be to go through all subsets of its
//! bound.
//!
//! Skolem's way (1920) is to put a new name in the place of a variable under a leading `some`: the
//! search for a structure then finds a value of the name as well. Alloy does so with the arguments
//! of commands (Jackson, Software Abstractions). So [`open_params`] makes of each such parameter a
//! field:
//!
//! - it has no owner and is static: the `some` stands before all temporal operators, so that its
//!   value is chosen once, for all states (`fields`);
//! - its label is `$` and the parameter's name, with a number where an earlier relation has that
//!   label;
//! - its columns and rows are those of the type of the parameter's bound, in which each earlier
//!   parameter stands for the rows of its own (`bounds`).
//!
//! The command then asks that the field lies in the parameter's bound, with the bound's
//! multiplicities, that it shares no tuple with those from which `disj` keeps it apart, and that
//! the body holds with the field for the parameter; atom parameters stay under `some` (`formula`).
//!
//! Proved: the fields, the formula, and that all else is as it was (`IsOpened`); and that the
//! formula holds just where the relations that the fields have, and some atoms, lie in the bounds as
//! said and the body holds of them (`opened_commands_run`).
#![tactic(auto)]

mod bounds;
mod fields;
mod formula;
mod law;
mod open;

pub use law::opened_commands_run;
pub use open::open_params;
