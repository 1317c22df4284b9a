//! Derived operators written out: what is left is the kernel of the language.
//!
//! An encoding has a case for each operator, and a proof of each case. So a formula is first
//! written with few of them:
//!
//! - of logic `not`, conjunction of a list, `iff` and the choice between two formulas;
//! - of sets `in`, `=`, the tests `some`, `one` and `lone`, and bounds with multiplicities;
//! - of integers `=` and `<`;
//! - of time `after`, `before`, `until` and `since`;
//! - of variables `all`, with one variable at a time where the names allow it, comprehensions and
//!   `sum`.
//!
//! `or` and `implies` become `not` over a conjunction; `some` with variables becomes "not all
//! not", and `no`, `one` and `lone` with variables are written by `all` and tests of
//! comprehensions; `always`, `eventually`, `releases`, `historically`, `once` and `triggered` are
//! written by `until` and `since`; `*e` becomes `^e + iden`. `iff`, `implies else`, `=` and `one`
//! stay, since each would be written with an operand twice, and nested ones would grow
//! exponentially.
//!
//! The kernel isn't a negation normal form, in which `not` stands before atoms alone: that form
//! needs both operators of each dual pair (`until` and `releases`, `since` and `triggered`, `some`
//! and `all`). Here one of each pair is left, and `not` stands anywhere, since negation is free in
//! the circuits that are built (`gate_trait`).
//!
//! [`kernel`] gives a formula of the forms of `IsLeft`, which nests no more past operators than
//! before. Where the formula has no calls and no `let`, the new one holds at the same positions of
//! every lasso.
#![tactic(auto)]

pub mod build;
pub mod derived;
pub mod forms;
pub mod variables;

pub use forms::kernel;
