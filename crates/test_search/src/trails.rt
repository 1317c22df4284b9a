//! What is forced where clauses leave the watches and come back.

ghost use Rattle.std.specs.Prelude.{◌≡◌, ◌<◌, ◌≤◌, IfOk, length};

use sat_dimacs::{Clause, ClauseList, Cnf};
use sat_trail::Trail;
use std::alloc::{AllocError, Global};
use std::test::Fail;

/// Two variables, and no clause.
fn two_variables(alloc: Global) -> Result<Trail, AllocError>
    ensures { IfOk result (λ t. t.variables ≡ 2) }
{
    let cnf = Cnf {
        variables: 2,
        clauses: ClauseList::new(alloc),
    };
    let trail = Trail::new(alloc, &cnf)?;
    Ok(trail)
}

/// Adds the clause of both variables, under the number that is given.
fn add_either(alloc: Global, trail: &mut Trail) -> Result<u64, AllocError>
    requires { trail.old.variables ≡ 2 }
    ensures { IfOk result (λ n. (0 < n) × (n ≤ length trail.new.ends)) }
{
    let mut clause = Clause::new(alloc);
    clause.push(1)?;
    clause.push(2)?;
    let number = trail.add_clause(&clause)?;
    Ok(number)
}

/// Makes the negation of a variable true, if it is free.
fn decide_not(trail: &mut Trail, variable: i64)
    ensures { trail.new.ends ≡ trail.old.ends }
{
    let count = trail.values().len();
    if variable > 0 && variable as usize <= count && trail.is_free(-variable) {
        trail.assign(-variable);
    }
}

/// The values of the two variables, once what is forced is made true.
fn values(trail: &mut Trail) -> Result<(i8, i8), AllocError>
    ensures { trail.new.ends ≡ trail.old.ends }
{
    trail.propagate()?;
    match trail.values() {
        [one, two] => Ok((*one, *two)),
        _ => Ok((9, 9)),
    }
}

#[test]
fn detached_clauses_force_nothing(rt: HostRuntime) -> Result<(), Fail> {
    let mut trail = two_variables(rt.alloc())?;
    let number = add_either(rt.alloc(), &mut trail)?;
    decide_not(&mut trail, 1);
    assert_eq!(rt; values(&mut trail)?, (-1, 1));
    trail.undo_to(0);
    trail.detach(&[true]);
    decide_not(&mut trail, 1);
    assert_eq!(rt; values(&mut trail)?, (-1, 0));
    // What is forced by a clause that comes back has the level that is open then.
    trail.attach(number)?;
    assert_eq!(rt; values(&mut trail)?, (-1, 1));
    Ok(())
}
