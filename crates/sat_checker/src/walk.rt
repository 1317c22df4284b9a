//! Unit propagation by hints: under false literals of a lemma each hint is unit or false.

ghost use Rattle.std.specs.Prelude.{◌≡◌, ◌<◌, length, IfErr, IsSome};
ghost use Rattle.sat_lrat.specs.Step.{among, walk};
ghost use Rattle.sat_checker.specs.Answers.{broken_rule, rule_of};
ghost use Rattle.sat_checker.specs.Marks.{fails_by, AreCovered, AreBefore, AreUpTo};
ghost use Rattle.sat_checker.specs.Table.{found};

use crate::fault::LineFault;
use crate::marks::{make_true, mark_all, rest};
use crate::table::ClauseTable;
use sat_lrat::Rest;

/// Takes the hints of a lemma in turn, until one is false.
fn walk(
    clauses: &ClauseTable,
    marks: &mut [u32],
    stamp: u32,
    hints: &[u64],
) -> Result<(), LineFault>
    requires covered { AreCovered (length marks.old) (found clauses.now) }
    requires up_to { AreUpTo stamp marks.old }
    ensures rule { broken_rule result ≡ walk (found clauses.now)
        (fails_by stamp marks.old) hints.now }
    ensures fault { IfErr result (λ fault. IsSome (rule_of fault)) }
    ensures up_to { AreUpTo stamp marks.new }
{
    for hint in hints {
        let Some(clause) = clauses.get(*hint) else {
            return Err(LineFault::L2);
        };
        match rest(marks, stamp, clause) {
            Rest::Nothing => return Ok(()),
            Rest::One(literal) if make_true(marks, stamp, literal) => {}
            _ => return Err(LineFault::L3),
        }
    }
    Err(LineFault::L4)
}

/// Checks that a lemma follows by its hints: its literals are taken as false, and then the hints in turn.
pub(crate) fn check_hints(
    clauses: &ClauseTable,
    marks: &mut [u32],
    stamp: u32,
    literals: &[i64],
    hints: &[u64],
) -> Result<(), LineFault>
    requires covered { AreCovered (length marks.old) (found clauses.now) }
    requires before { AreBefore stamp marks.old }
    ensures rule { broken_rule result ≡ walk (found clauses.now) (among literals.now)
        hints.now }
    ensures fault { IfErr result (λ fault. IsSome (rule_of fault)) }
    ensures up_to { AreUpTo stamp marks.new }
{
    mark_all(marks, stamp, literals);
    walk(clauses, marks, stamp, hints)
}
