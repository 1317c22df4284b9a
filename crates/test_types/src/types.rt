//! Sig 0 is top-level, sig 1 extends it and is `var`, sig 2 is `String` and sig 3 a literal's.

use base_types::{Name, Position};
use core_tree::{
    AssertList, BodyList, Bound, Column, CommandList, Expr, FactList, Field, FieldBound, FieldList,
    Model, Multiplicity, Origin, Row, RowList, Sig, SigKind, SigList,
};
use resolve_type_check::keeps_types;
use std::alloc::{AllocError, Global};
use std::test::Fail;

const FIRST: Origin = Origin {
    instance: 0,
    place: Position {
        module: 0,
        line: 1,
        column: 1,
    },
};

fn sig(
    alloc: Global,
    origin: Option<Origin>,
    is_var: bool,
    kind: SigKind,
) -> Result<Sig, AllocError> {
    Ok(Sig {
        origin,
        label: Name::copy(alloc, "A")?,
        is_var,
        is_abstract: false,
        multiplicity: Multiplicity::Set,
        kind,
        appended: None,
        exactly: None,
    })
}

fn sigs(alloc: Global) -> Result<SigList, AllocError> {
    let mut all = SigList::new(alloc);
    all.push(sig(alloc, Some(FIRST), false, SigKind::Top)?)?;
    all.push(sig(alloc, Some(FIRST), true, SigKind::Extends(0))?)?;
    all.push(sig(alloc, None, false, SigKind::Top)?)?;
    all.push(sig(alloc, None, false, SigKind::Extends(2))?)?;
    Ok(all)
}

fn rows(alloc: Global, pairs: &[(u32, u32)]) -> Result<RowList, AllocError> {
    let mut all = RowList::new(alloc);
    for pair in pairs {
        let (a, b) = *pair;
        let mut row = Row::new(alloc);
        row.push(Column::Sig(a))?;
        row.push(Column::Sig(b))?;
        all.push(row)?;
    }
    Ok(all)
}

/// Whether a field of sig 0 with this bound has these rows.
fn has(alloc: Global, bound: Expr, pairs: &[(u32, u32)]) -> Result<bool, AllocError> {
    let mut fields = FieldList::new(alloc);
    fields.push(Field {
        label: Name::copy(alloc, "f")?,
        columns: 2,
        rows: rows(alloc, pairs)?,
        is_var: false,
        owner: Some(0),
        declared: Some(FieldBound {
            bound: Bound {
                multiplicity: Multiplicity::Set,
                expr: bound,
            },
            disj_list: None,
            disj_values: false,
        }),
    })?;
    let model = Model {
        sigs: sigs(alloc)?,
        fields,
        facts: FactList::new(alloc),
        asserts: AssertList::new(alloc),
        bodies: BodyList::new(alloc),
        commands: CommandList::new(alloc),
    };
    keeps_types(alloc, &model)
}

#[test]
fn literal_is_a_string(rt: HostRuntime) -> Result<(), Fail> {
    let alloc = rt.alloc();
    assert!(rt; has(alloc, Expr::Sig(3), &[(0, 2)])?);
    assert!(rt; !has(alloc, Expr::Sig(3), &[(0, 3)])?);
    Ok(())
}
