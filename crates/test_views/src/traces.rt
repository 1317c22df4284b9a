//! What no clause says: which texts are read, what is read, and the line of a fault. Expected values are from docs/FORMATS.md.
use std::alloc::Global;
use std::test::Fail;
use view_trace::{Kind, Names, Trace, TraceFault, read_trace};

const TRACE: &[u8] = b"trace states 2 loop 1
state 0
T = T$0, T$1
T.f = T$1->\"a, b->c\"->-3
util/ordering/Ord =
String = \"a, b->c\"
$x = T$0
state 1
T = T$0, T$1
T.f =
util/ordering/Ord =
String = \"a, b->c\"
$x = T$0
end
";

/// The line of the fault, or 0 where a text is read.
fn line_of(alloc: Global, text: &[u8]) -> u32 {
    match read_trace(alloc, text) {
        Ok(_) => 0,
        Err(TraceFault::BadTrace { line }) => line,
        Err(TraceFault::Memory) => u32::MAX,
    }
}

/// What is told of the relation at a place.
fn told(trace: &Trace, place: usize) -> Option<(Kind, usize, bool)> {
    let relation = trace.relations.get(place)?;
    Some((relation.kind, relation.columns, relation.changes))
}

/// The numbers of a relation's atoms in a state.
fn atoms<'t>(trace: &'t Trace, state: usize, place: usize) -> &'t [u32] {
    match trace.states.get(state) {
        Some(state) => match state.get(place) {
            Some(table) => table.atoms(),
            None => &[],
        },
        None => &[],
    }
}

#[test]
fn what_is_read(rt: HostRuntime) -> Result<(), Fail> {
    let trace = read_trace(rt.alloc(), TRACE)?;
    assert_eq!(rt; trace.loop_start, 1);
    assert_eq!(rt; trace.states.len(), 2);
    assert_eq!(rt; trace.names.name(2), b"\"a, b->c\"".as_slice());
    assert_eq!(rt; told(&trace, 0), Some((Kind::Sig, 1, false)));
    assert_eq!(rt; told(&trace, 1), Some((Kind::Field, 3, true)));
    assert_eq!(rt; told(&trace, 2), Some((Kind::Sig, 0, false)));
    assert_eq!(rt; told(&trace, 4), Some((Kind::Parameter, 1, false)));
    assert_eq!(rt; atoms(&trace, 0, 1), [1u32, 2, 3].as_slice());
    assert!(rt; atoms(&trace, 1, 1).is_empty());
    Ok(())
}

#[test]
fn faults_have_lines(rt: HostRuntime) {
    for (text, line) in [
        (b"trace states 1 loop 0\nstate 0\nend\n".as_slice(), 0),
        (
            b"trace states 1 loop 0\nstate 0\nend\nclauses\np cnf 0 0\n".as_slice(),
            0,
        ),
        (b"none states 3\n".as_slice(), 1),
        (b"".as_slice(), 1),
        (b"trace states 1 loop 1\n".as_slice(), 1),
        (b"trace states 1 loop 0\nstate 1\n".as_slice(), 2),
        (
            b"trace states 1 loop 0\nstate 0\nA = A$0->A$0\nend\n".as_slice(),
            3,
        ),
        (
            b"trace states 1 loop 0\nstate 0\nA.f = A$0\nend\n".as_slice(),
            3,
        ),
        (
            b"trace states 1 loop 0\nstate 0\nA = A$0,A$1\nend\n".as_slice(),
            3,
        ),
        (
            b"trace states 1 loop 0\nstate 0\nA = A$0, A$0\nend\n".as_slice(),
            3,
        ),
        (
            b"trace states 1 loop 0\nstate 0\nA = A 0\nend\n".as_slice(),
            3,
        ),
        (
            b"trace states 1 loop 0\nstate 0\nA = A$0\nA = A$0\nend\n".as_slice(),
            4,
        ),
        (
            b"trace states 1 loop 0\nstate 0\nA = A$0\nend".as_slice(),
            4,
        ),
        (b"trace states 1 loop 0\nstate 0\nend\nmore\n".as_slice(), 4),
        (
            b"trace states 2 loop 0\nstate 0\nA =\nstate 1\nB =\nend\n".as_slice(),
            5,
        ),
        (
            b"trace states 2 loop 0\nstate 0\nA =\nstate 1\nend\n".as_slice(),
            5,
        ),
        (b"trace states 2 loop 0\nstate 0\nA =\nend\n".as_slice(), 4),
    ] {
        assert_eq!(rt; line_of(rt.alloc(), text), line);
    }
}

#[test]
fn names_of_atoms(rt: HostRuntime) -> Result<(), Fail> {
    let mut names = Names::new(rt.alloc());
    for name in [
        b"A$0".as_slice(),
        b"m/A$16383",
        b"-2048",
        b"0",
        b"\"\"",
        b"m$2/A$0",
    ] {
        assert!(rt; names.number(name)?.is_some());
    }
    for name in [
        b"".as_slice(),
        b"A",
        b"$0",
        b"A$00",
        b"A$16384",
        b"2048",
        b"-0",
        b"\"",
        b"\"a",
        b"A B$0",
    ] {
        assert!(rt; names.number(name)?.is_none());
    }
    Ok(())
}
