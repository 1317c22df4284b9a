//! The checker: the clauses that stand, and what a line does to them where it passes.

ghost use Rattle.std.specs.Prelude.{◌≡◌, ◌<◌, ◌≤◌, IfOk, IfErr, IfSome, OnOk, OnErr, IsErrOf, IsOk, IsSome, Ok, Err, List, ℤ};
ghost use Rattle.sat_dimacs.specs.Literal.{IsLiteral};
ghost use Rattle.sat_lrat.specs.Step.{State, start, step, walk, clause_at, among, with_clause, Follows, IsUnsatisfiable};
ghost use Rattle.sat_checker.specs.Answers.{broken_rule, rule_of, kind_of};

use crate::fault::{LineFault, Step};
use crate::marks::fresh_stamp;
use crate::store::{all_stand, are_distinct, cover, remove_all};
use crate::table::ClauseTable;
use crate::walk::check_hints;
use sat_dimacs::{Clause, Cnf};
use sat_lrat::{Hints, Line, start_is_sound, step_is_sound};
use std::alloc::{AllocError, Global};
use std::marker::Model;

/// The clauses that stand under their numbers, and the greatest number that there was so far.
#[derive(Drop)]
pub struct Checker {
    clauses: ClauseTable,
    marks: Vec<u32>,
    stamp: u32,
    top: u64,
}

impl Model for Checker {
    ghost use Rattle.std.specs.FinMap as map;
    ghost use Rattle.sat_lrat.specs.Step.{State, state_code};
    ghost use Rattle.sat_checker.specs.Table.{found};
    ghost use Rattle.sat_checker.specs.Marks.{AreReady};

    ghost Value = { State };

    ghost coded = { state_code };

    ghost view = { λ c. record { standing = map.from_entries c.clauses; top = c.top } };

    ghost invariant = { λ c. AreReady (found c.clauses) c.marks.items c.stamp };
}

impl Checker {
    /// A checker that holds the clauses of a formula under the numbers from 1 on.
    pub fn new(alloc: Global, cnf: &Cnf) -> Result<Checker, AllocError>
        ensures start { IfOk result (λ checker. checker ≡ start cnf.now.clauses) }
        // What stands follows from the formula.
        ensures follows { IfOk result (λ checker. Follows cnf.now.clauses checker) }
    {
        start_is_sound();
        let mut checker = Checker {
            clauses: ClauseTable::new(alloc),
            marks: Vec::new(alloc),
            stamp: 0,
            top: 0,
        };
        for clause in cnf.clauses.clauses() {
            let id = checker.top + 1;
            checker.keep(id, clause)?;
        }
        Ok(checker)
    }

    /// Takes the next line: it checks a lemma and keeps it, or deletes clauses.
    ///
    /// After an empty lemma that passed, that lemma stands, and later lines are checked as before.
    pub fn add(&mut self, line: &Line) -> Result<Step, LineFault>
        // What passes does what the line says.
        ensures passes { IfOk result (λ kind. (step self.old line.now ≡ Ok self.new)
            × (kind ≡ kind_of line.now)) }
        // A fault is the first rule that the line breaks.
        ensures fault { IfErr result (λ fault. IfSome (rule_of fault)
            (λ rule. step self.old line.now ≡ Err rule)) }
        // Memory is wanted only to keep a lemma that passes.
        ensures memory { IsErrOf result LineFault.Memory → IsOk (step self.old line.now) }
        ensures kept { OnErr result (self.new ≡ self.old) }
        // What stands follows from the formula, as it did before.
        ensures follows { (formula : List (List ℤ)) → Follows formula self.old →
            OnOk result (Follows formula self.new) }
        // A refuted formula is satisfied by no assignment.
        ensures refuted { (formula : List (List ℤ)) → Follows formula self.old →
            IfOk result (λ kind. kind ≡ Step.Refuted → IsUnsatisfiable formula) }
    {
        step_is_sound();
        match line {
            Line::Lemma { id, clause, hints } => self.add_lemma(*id, clause, hints),
            Line::Delete { ids } => self.delete(ids),
        }
    }

    /// Puts a clause under a number.
    fn keep(&mut self, id: u64, clause: &Clause) -> Result<(), AllocError>
        ensures kept { OnOk result (self.new ≡ with_clause self.old id clause.now) }
        ensures err { OnErr result (self.new ≡ self.old) }
    {
        let literals = clause.literals();
        cover(&mut self.marks, literals)?;
        self.clauses.insert(id, literals)?;
        self.top = id;
        Ok(())
    }

    /// Checks that a lemma follows by its hints.
    fn check(&mut self, literals: &[i64], hints: &[u64]) -> Result<(), LineFault>
        ensures rule { broken_rule result ≡ walk (clause_at self.old) (among literals.now)
            hints.now }
        ensures fault { IfErr result (λ fault. IsSome (rule_of fault)) }
        ensures kept { self.new ≡ self.old }
    {
        let stamp = fresh_stamp(self.marks.as_mut_slice(), self.stamp);
        self.stamp = stamp;
        let marks = self.marks.as_mut_slice();
        check_hints(&self.clauses, marks, stamp, literals, hints)
    }

    /// Takes a lemma.
    fn add_lemma(&mut self, id: u64, clause: &Clause, hints: &Hints) -> Result<Step, LineFault>
        ensures passes { IfOk result (λ kind. (step self.old (Line.Lemma id clause.now hints.now)
            ≡ Ok self.new)
            × (kind ≡ kind_of (Line.Lemma id clause.now hints.now))) }
        ensures fault { IfErr result (λ fault. IfSome (rule_of fault)
            (λ rule. step self.old (Line.Lemma id clause.now hints.now) ≡ Err rule)) }
        ensures memory { IsErrOf result LineFault.Memory →
            IsOk (step self.old (Line.Lemma id clause.now hints.now)) }
        ensures kept { OnErr result (self.new ≡ self.old) }
    {
        if id <= self.top {
            return Err(LineFault::L1);
        }
        self.check(clause.literals(), hints.numbers())?;
        self.keep(id, clause)?;
        if clause.is_empty() {
            return Ok(Step::Refuted);
        }
        Ok(Step::Added)
    }

    /// Takes a deletion line.
    fn delete(&mut self, ids: &Hints) -> Result<Step, LineFault>
        ensures passes { IfOk result (λ kind. (step self.old (Line.Delete ids.now) ≡ Ok self.new)
            × (kind ≡ Step.Deleted)) }
        ensures fault { IfErr result (λ fault. (fault ≡ LineFault.L5)
            × (step self.old (Line.Delete ids.now) ≡ Err 5)) }
        ensures kept { OnErr result (self.new ≡ self.old) }
    {
        let ids = ids.numbers();
        if all_stand(&self.clauses, ids) && are_distinct(*self.marks.allocator(), ids) {
            remove_all(&mut self.clauses, ids);
            return Ok(Step::Deleted);
        }
        Err(LineFault::L5)
    }
}
