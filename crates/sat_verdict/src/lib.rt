//! The check of a refutation that is given by two texts, clauses and lines; they have one verdict.
//!
//! The clauses are in the DIMACS format, the lines in the LRAT format. A law says that two texts
//! have at most one verdict, so that it is decided by the texts alone. Its function does nothing;
//! a caller that needs the law calls it.
#![tactic(auto)]

mod mode;

ghost use Rattle.std.specs.Prelude.{◌≡◌, ℕ, List};
ghost use Rattle.sat_verdict.specs.Mode.{IsVerdict};
ghost use Rattle.sat_verdict.specs.declared.mode.Verdict.{Verdict};

pub use mode::{Verdict, check_texts, message_of, status_of};

/// A law: two texts have at most one verdict.
pub fn texts_have_one_verdict()
    ensures { (clauses lines : List ℕ) (verdict other : Verdict) → IsVerdict clauses lines verdict →
        IsVerdict clauses lines other → verdict ≡ other }
{}
