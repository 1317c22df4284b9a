//! The printed texts of answers.
//!
//! They are the rows that say what the variables of clauses stand for (`rows`), the list of a
//! module's commands (`lines`), clauses with the lines that belong to them (`clauses`), judgements
//! on a trace (`judged`), a trace that is the shortest and facts that rule out every trace
//! (`certified`), and a ring with its summary (`ring`, `summary`).
#![tactic(auto)]

mod rows;

pub use rows::table;

mod lines;

pub use lines::command_text;

mod clauses;
mod ring;
mod summary;
mod write;

pub use clauses::{absent_text, push_block, unknown_text};
pub use ring::ring_text;
pub use summary::{made_none, made_trace, made_unknown};
pub use write::push_decimal;

mod certified;
mod fact;
mod judged;
mod judgement;

pub use certified::{above_part, core_part, trace_part};
pub use fact::{FactName, FactNameList, fact_name};
pub use judged::{is_satisfied, judgement_text};
pub use judgement::{JudgedFact, JudgedFactList, Judgement};
