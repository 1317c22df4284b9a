//! A log of lemmas takes a lemma only where the checker passes it.

ghost use Rattle.std.specs.Prelude.{◌≡◌, List, ℤ, IfOk, [], IsTrue};
ghost use Rattle.sat_lrat.specs.Step.{start};
ghost use Rattle.sat_lemmas.specs.Outcome.{AreLemmas, Leaves, IsTaken, is_lemma};

use sat_checker::{Checker, LineFault, Step};
use sat_dimacs::Cnf;
use sat_lrat::{Line, LineList};
use std::alloc::{AllocError, Global};

/// What became of a lemma that was handed to a log.
#[derive(Clone, Copy, Debug, PartialEq, Eq)]
pub enum Taken {
    /// It passed, and stands now.
    Added,
    /// It passed and is empty.
    Refuted,
    /// It does not pass, and nothing has changed.
    Failed,
}

/// The lemmas of a search so far, and the checker that has taken each of them.
#[derive(Drop)]
pub struct LemmaLog {
    pub checker: Checker,
    pub lines: LineList,
}

impl LemmaLog {
    /// No lemma yet.
    pub fn new(alloc: Global, cnf: &Cnf) -> Result<LemmaLog, AllocError>
        ensures lines { IfOk result (λ log. log.lines ≡ []) }
        ensures checker { IfOk result (λ log. log.checker ≡ start cnf.now.clauses) }
        ensures lemmas { IfOk result (λ log. AreLemmas (start cnf.now.clauses) log.lines
            log.checker) }
    {
        Ok(LemmaLog {
            checker: Checker::new(alloc, cnf)?,
            lines: LineList::new(alloc),
        })
    }

    /// Takes a lemma, where it passes. Where memory is refused, the log is not to be used any more.
    pub fn take(&mut self, line: Line) -> Result<Taken, AllocError>
        requires { IsTrue (is_lemma line) }
        ensures taken { IfOk result (λ taken. IsTaken line self.old.lines self.old.checker taken
            self.new.lines self.new.checker) }
        ensures leaves { (formula : List (List ℤ)) →
            AreLemmas (start formula) self.old.lines self.old.checker →
            IfOk result (λ taken. Leaves formula taken self.new.lines self.new.checker) }
    {
        match self.checker.add(&line) {
            Ok(Step::Added) => {
                self.lines.push(line)?;
                Ok(Taken::Added)
            }
            Ok(Step::Refuted) => {
                self.lines.push(line)?;
                Ok(Taken::Refuted)
            }
            Ok(Step::Deleted) => unreachable!(),
            Err(LineFault::Memory) => Err(AllocError),
            Err(_) => Ok(Taken::Failed),
        }
    }
}
