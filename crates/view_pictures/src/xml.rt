//! A trace as the instances that the Alloy Analyzer's visualizer reads, one a state.
//!
//! A sig by which atoms are named is written as one below `univ`; every other sig as a subset of those by which its atoms
//! are named, since a trace doesn't tell which sig extends which. What has no atom in any state counts as a sig of its own.

use crate::edges::{short_label, sig_label};
use crate::types::{STRING, Types, UNIV, id_of, types_of};
use std::alloc::{AllocError, Global};
use view_quotes::{push_entities, push_number};
use view_trace::{Kind, Names, Relation, State, Table, Trace, integer_of, width_of};

/// The sigs that stand in every instance.
const BUILT_IN: &[u8] = b"
<sig label=\"seq/Int\" ID=\"0\" parentID=\"1\" builtin=\"yes\">
</sig>

<sig label=\"Int\" ID=\"1\" parentID=\"2\" builtin=\"yes\">
</sig>

<sig label=\"univ\" ID=\"2\" builtin=\"yes\">
</sig>
";

/// `String` where no atom is a literal.
const NO_STRINGS: &[u8] = b"
<sig label=\"String\" ID=\"3\" parentID=\"2\" builtin=\"yes\">
</sig>
";

/// Bitwidths with the least and the greatest integer.
const BITWIDTHS: [(u64, i64, i64); 8] = [
    (4, -8, 7),
    (5, -16, 15),
    (6, -32, 31),
    (7, -64, 63),
    (8, -128, 127),
    (9, -256, 255),
    (10, -512, 511),
    (11, -1024, 1023),
];

/// Writes an attribute whose value is a number.
fn push_attribute(out: &mut Vec<u8>, name: &[u8], value: u64) -> Result<(), AllocError> {
    out.extend_from_slice(b" ")?;
    out.extend_from_slice(name)?;
    out.extend_from_slice(b"=\"")?;
    push_number(out, value)?;
    out.extend_from_slice(b"\"")
}

/// Writes an attribute whose value is a name.
fn push_label(out: &mut Vec<u8>, front: &[u8], label: &[u8]) -> Result<(), AllocError> {
    out.extend_from_slice(b" label=\"")?;
    out.extend_from_slice(front)?;
    push_entities(out, label)?;
    out.extend_from_slice(b"\"")
}

/// Whether a name is that of an integer from the least to the greatest, or of no integer.
fn is_within(name: &[u8], least: i64, most: i64) -> bool {
    match integer_of(name) {
        Some(number) => least <= number && number <= most,
        None => true,
    }
}

/// Whether each integer among the names is from the least to the greatest.
fn are_within(names: &[&[u8]], least: i64, most: i64) -> bool {
    for name in names {
        if !is_within(*name, least, most) {
            return false;
        }
    }
    true
}

/// The least bitwidth from 4 on that all integers of a trace have.
fn bitwidth(names: &Names) -> u64 {
    for (bits, least, most) in BITWIDTHS {
        if are_within(names.list(), least, most) {
            return bits;
        }
    }
    12
}

/// Writes an atom.
fn push_atom(out: &mut Vec<u8>, names: &Names, atom: u32) -> Result<(), AllocError> {
    out.extend_from_slice(b"<atom")?;
    push_label(out, b"", names.name(atom))?;
    out.extend_from_slice(b"/>")
}

/// Writes the atoms of a sig.
fn push_atoms(out: &mut Vec<u8>, names: &Names, table: &Table) -> Result<(), AllocError> {
    for atom in table.atoms() {
        out.extend_from_slice(b"   ")?;
        push_atom(out, names, *atom)?;
        out.extend_from_slice(b"\n")?;
    }
    Ok(())
}

/// Writes tuples.
fn push_tuples(out: &mut Vec<u8>, names: &Names, table: &Table) -> Result<(), AllocError> {
    for tuple in table.tuples() {
        out.extend_from_slice(b"   <tuple>")?;
        for atom in tuple {
            out.extend_from_slice(b" ")?;
            push_atom(out, names, *atom)?;
        }
        out.extend_from_slice(b" </tuple>\n")?;
    }
    Ok(())
}

/// Writes a type.
fn push_type(out: &mut Vec<u8>, id: u64) -> Result<(), AllocError> {
    out.extend_from_slice(b"<type")?;
    push_attribute(out, b"ID", id)?;
    out.extend_from_slice(b"/>")
}

/// Writes a row of types.
fn push_row(out: &mut Vec<u8>, row: &[u64]) -> Result<(), AllocError> {
    out.extend_from_slice(b"   <types>")?;
    for id in row {
        out.extend_from_slice(b" ")?;
        push_type(out, *id)?;
    }
    out.extend_from_slice(b" </types>\n")
}

/// Writes rows of types.
fn push_rows(out: &mut Vec<u8>, rows: &[u64], columns: usize) -> Result<(), AllocError> {
    for row in rows.chunks(width_of(columns)) {
        push_row(out, row)?;
    }
    Ok(())
}

/// Writes that a relation changes, and ends the tag.
fn push_var(out: &mut Vec<u8>, relation: &Relation) -> Result<(), AllocError> {
    if relation.changes {
        out.extend_from_slice(b" var=\"yes\"")?;
    }
    out.extend_from_slice(b">\n")
}

/// Writes how the tag of a sig goes on behind its id.
fn push_parent(
    out: &mut Vec<u8>,
    types: &Types,
    relation: &Relation,
    id: u64,
) -> Result<(), AllocError> {
    if id == STRING {
        push_attribute(out, b"parentID", UNIV)?;
        return out.extend_from_slice(b" builtin=\"yes\"");
    }
    if types.is_top(relation) {
        push_attribute(out, b"parentID", UNIV)?;
    }
    Ok(())
}

/// Writes of which sigs a sig is a subset.
fn push_supersets(
    out: &mut Vec<u8>,
    types: &Types,
    relation: &Relation,
    place: usize,
) -> Result<(), AllocError> {
    if id_of(relation, place) == STRING || types.is_top(relation) {
        return Ok(());
    }
    for id in types.rows(place) {
        out.extend_from_slice(b"   ")?;
        push_type(out, *id)?;
        out.extend_from_slice(b"\n")?;
    }
    Ok(())
}

/// What stands before the label of a sig: `this/`, where no instance is named.
fn front_of(relation: &Relation, id: u64) -> &'static [u8] {
    if id == STRING || relation.label.contains(&b'/') {
        b"".as_slice()
    } else {
        b"this/".as_slice()
    }
}

/// Writes a sig.
fn push_sig(
    out: &mut Vec<u8>,
    names: &Names,
    types: &Types,
    relation: &Relation,
    place: usize,
    table: &Table,
) -> Result<(), AllocError> {
    let id = id_of(relation, place);
    out.extend_from_slice(b"\n<sig")?;
    push_label(out, front_of(relation, id), relation.label)?;
    push_attribute(out, b"ID", id)?;
    push_parent(out, types, relation, id)?;
    push_var(out, relation)?;
    push_atoms(out, names, table)?;
    push_supersets(out, types, relation, place)?;
    out.extend_from_slice(b"</sig>\n")
}

/// Writes the types of a field. One without tuples has those of its sig and of `univ`.
fn push_field_types(
    out: &mut Vec<u8>,
    types: &Types,
    relation: &Relation,
    place: usize,
    parent: u64,
) -> Result<(), AllocError> {
    if relation.columns == 0 {
        return push_row(out, &[parent, UNIV]);
    }
    push_rows(out, types.rows(place), relation.columns)
}

/// Writes a field.
fn push_field(
    out: &mut Vec<u8>,
    names: &Names,
    types: &Types,
    relation: &Relation,
    place: usize,
    table: &Table,
) -> Result<(), AllocError> {
    let parent = types.id(sig_label(relation.label));
    out.extend_from_slice(b"\n<field")?;
    push_label(out, b"", short_label(relation.label))?;
    push_attribute(out, b"ID", id_of(relation, place))?;
    push_attribute(out, b"parentID", parent)?;
    push_var(out, relation)?;
    push_tuples(out, names, table)?;
    push_field_types(out, types, relation, place, parent)?;
    out.extend_from_slice(b"</field>\n")
}

/// Writes a relation parameter, where it has a tuple.
fn push_parameter(
    out: &mut Vec<u8>,
    names: &Names,
    types: &Types,
    relation: &Relation,
    place: usize,
    table: &Table,
) -> Result<(), AllocError> {
    if table.columns() == 0 {
        return Ok(());
    }
    out.extend_from_slice(b"\n<skolem")?;
    push_label(out, b"", relation.label)?;
    push_attribute(out, b"ID", id_of(relation, place))?;
    push_var(out, relation)?;
    push_tuples(out, names, table)?;
    push_rows(out, types.rows(place), relation.columns)?;
    out.extend_from_slice(b"</skolem>\n")
}

/// Writes a relation.
fn push_relation(
    out: &mut Vec<u8>,
    names: &Names,
    types: &Types,
    relation: &Relation,
    place: usize,
    table: &Table,
) -> Result<(), AllocError> {
    match relation.kind {
        Kind::Sig => push_sig(out, names, types, relation, place, table),
        Kind::Field => push_field(out, names, types, relation, place, table),
        Kind::Parameter => push_parameter(out, names, types, relation, place, table),
    }
}

/// Writes how an instance begins.
fn push_begin(out: &mut Vec<u8>, trace: &Trace, bits: u64) -> Result<(), AllocError> {
    let count = trace.states.len() as u64;
    out.extend_from_slice(b"\n<instance")?;
    push_attribute(out, b"bitwidth", bits)?;
    out.extend_from_slice(b" maxseq=\"0\" mintrace=\"1\"")?;
    push_attribute(out, b"maxtrace", count)?;
    out.extend_from_slice(b" command=\"\" filename=\"\"")?;
    push_attribute(out, b"tracelength", count)?;
    push_attribute(out, b"backloop", u64::from(trace.loop_start))?;
    out.extend_from_slice(b">\n")
}

/// Writes the instance of a state.
fn push_instance(
    out: &mut Vec<u8>,
    trace: &Trace,
    types: &Types,
    bits: u64,
    state: &State,
) -> Result<(), AllocError> {
    push_begin(out, trace, bits)?;
    out.extend_from_slice(BUILT_IN)?;
    if !types.has_strings() {
        out.extend_from_slice(NO_STRINGS)?;
    }
    for (place, (relation, table)) in trace.relations.iter().zip(state.iter()).enumerate() {
        push_relation(out, &trace.names, types, relation, place, table)?;
    }
    out.extend_from_slice(b"\n</instance>\n")
}

/// A trace as an XML text of the form that version 6 of the Alloy Analyzer writes and opens.
pub fn write_xml(alloc: Global, trace: &Trace) -> Result<Vec<u8>, AllocError> {
    let types = types_of(alloc, trace)?;
    let bits = bitwidth(&trace.names);
    let mut out = Vec::new(alloc);
    out.extend_from_slice(b"<alloy builddate=\"\">\n")?;
    for state in trace.states.iter() {
        push_instance(&mut out, trace, &types, bits, state)?;
    }
    out.extend_from_slice(b"\n</alloy>\n")?;
    Ok(out)
}
