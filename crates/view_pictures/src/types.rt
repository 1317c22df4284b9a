//! Which sigs the columns of relations have, as far as a trace tells.

use std::alloc::{AllocError, Global};
use std::collections::{HashMap, HashSet};
use view_trace::{Kind, Names, Relation, State, Trace, integer_of, owner_of, width_of};

/// The id of `Int`.
pub const INT: u64 = 1;

/// The id of `univ`.
pub const UNIV: u64 = 2;

/// The id of `String`.
pub const STRING: u64 = 3;

/// The ids from this one on are those of the relations.
const FIRST: u64 = 4;

/// Ids of relations, and the types of atoms and relations by these ids.
#[derive(Drop)]
pub struct Types<'a> {
    /// The ids of sigs, by their labels.
    ids: HashMap<&'a [u8], u64>,
    /// The labels by which atoms are named.
    owners: HashSet<&'a [u8]>,
    /// For each relation the rows of types that its tuples have in some state, one behind another.
    rows: Vec<Vec<u64>>,
}

/// The id of the relation at a place.
pub fn id_of(relation: &Relation, place: usize) -> u64 {
    if relation.label == b"String".as_slice() {
        STRING
    } else {
        (place as u64).saturating_add(FIRST)
    }
}

/// The ids of sigs.
fn ids_of<'a>(
    alloc: Global,
    relations: &[Relation<'a>],
) -> Result<HashMap<&'a [u8], u64>, AllocError> {
    let mut ids: HashMap<&'a [u8], u64> = HashMap::new(alloc);
    for (place, relation) in relations.iter().enumerate() {
        if relation.kind == Kind::Sig {
            ids.insert(relation.label, id_of(relation, place))?;
        }
    }
    Ok(ids)
}

/// The labels by which atoms are named.
fn owners_of<'a>(alloc: Global, names: &[&'a [u8]]) -> Result<HashSet<&'a [u8]>, AllocError> {
    let mut owners: HashSet<&'a [u8]> = HashSet::new(alloc);
    for name in names {
        owners.insert(owner_of(*name))?;
    }
    Ok(owners)
}

/// The id of the sig by which an atom is named, `Int` or `String`.
fn type_of(ids: &HashMap<&[u8], u64>, name: &[u8]) -> u64 {
    if integer_of(name).is_some() {
        return INT;
    }
    if name.first().copied() == Some(b'"') {
        return STRING;
    }
    ids.get(owner_of(name)).copied().unwrap_or(UNIV)
}

/// The types of the atoms, by their numbers.
fn types_of_atoms(
    alloc: Global,
    ids: &HashMap<&[u8], u64>,
    names: &Names,
) -> Result<Vec<u64>, AllocError> {
    let mut types = Vec::new(alloc);
    for name in names.list() {
        types.push(type_of(ids, *name))?;
    }
    Ok(types)
}

/// The types of the atoms in a relation's tuples, in all states, tuple by tuple.
fn types_in(
    alloc: Global,
    states: &[State],
    place: usize,
    types: &[u64],
) -> Result<Vec<u64>, AllocError> {
    let mut all = Vec::new(alloc);
    for state in states {
        if let Some(table) = state.get(place) {
            for atom in table.atoms() {
                all.push(types.get(*atom as usize).copied().unwrap_or(UNIV))?;
            }
        }
    }
    Ok(all)
}

/// Rows without repeats, in the order in which they come first.
fn distinct(alloc: Global, rows: &[u64], columns: usize) -> Result<Vec<u64>, AllocError> {
    let mut seen: HashSet<&[u64]> = HashSet::new(alloc);
    let mut all = Vec::new(alloc);
    for row in rows.chunks(width_of(columns)) {
        if seen.insert(row)? {
            all.extend_from_slice(row)?;
        }
    }
    Ok(all)
}

/// The rows of types of each relation.
fn rows_of(alloc: Global, trace: &Trace, types: &[u64]) -> Result<Vec<Vec<u64>>, AllocError> {
    let mut rows = Vec::new(alloc);
    for (place, relation) in trace.relations.iter().enumerate() {
        let all = types_in(alloc, trace.states.as_slice(), place, types)?;
        rows.push(distinct(alloc, all.as_slice(), relation.columns)?)?;
    }
    Ok(rows)
}

/// The types of a trace.
pub fn types_of<'a>(alloc: Global, trace: &Trace<'a>) -> Result<Types<'a>, AllocError> {
    let ids = ids_of(alloc, trace.relations.as_slice())?;
    let owners = owners_of(alloc, trace.names.list())?;
    let types = types_of_atoms(alloc, &ids, &trace.names)?;
    let rows = rows_of(alloc, trace, types.as_slice())?;
    Ok(Types { ids, owners, rows })
}

impl<'a> Types<'a> {
    /// The id of the sig with this label, or that of `univ`.
    pub fn id(&self, label: &[u8]) -> u64 {
        self.ids.get(label).copied().unwrap_or(UNIV)
    }

    /// Whether `String` has a line.
    pub fn has_strings(&self) -> bool {
        self.ids.contains_key(b"String".as_slice())
    }

    /// Whether a sig is written as one below `univ`: atoms are named by it, or it has none at all.
    pub fn is_top(&self, relation: &Relation) -> bool {
        relation.columns == 0 || self.owners.contains(relation.label)
    }

    /// The rows of types of the relation at a place, one behind another.
    pub fn rows(&self, place: usize) -> &[u64] {
        match self.rows.get(place) {
            Some(rows) => rows.as_slice(),
            None => &[],
        }
    }
}
