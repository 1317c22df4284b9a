//! What a trace has: atoms, relations, and in each state a table for each relation.

ghost use Rattle.std.specs.Prelude.{◌<◌};
ghost use Rattle.std.specs.Slice.Iter.{chunks_size};

use crate::names::Names;
use std::alloc::{AllocError, Global};
use std::collections::HashSet;
use std::slice::Chunks;

/// What the label of a relation says of it.
#[derive(Clone, Copy, Debug, PartialEq, Eq)]
pub enum Kind {
    /// A sig, or `String`: one column.
    Sig,
    /// A field, whose label has a dot: two columns or more.
    Field,
    /// A relation parameter, whose label begins with `$`: one column or more.
    Parameter,
}

/// A relation of a trace.
#[derive(Drop)]
pub struct Relation<'a> {
    /// Its label.
    pub label: &'a [u8],
    /// What the label says of it.
    pub kind: Kind,
    /// How many columns its tuples have, or 0 where it has no tuple in any state.
    pub columns: usize,
    /// Whether its line isn't the same in all states.
    pub changes: bool,
}

/// The tuples that a relation has in a state, in the order of the text.
#[derive(Drop)]
pub struct Table {
    columns: usize,
    atoms: Vec<u32>,
}

/// The tables of a state, one for each relation.
pub type State = Vec<Table>;

/// A trace. Atoms are numbered in the order in which the text first names them.
#[derive(Drop)]
pub struct Trace<'a> {
    /// The names of atoms, by their numbers.
    pub names: Names<'a>,
    /// The relations in the order of their lines.
    pub relations: Vec<Relation<'a>>,
    /// The states, each with a table for each relation.
    pub states: Vec<State>,
    /// The state that follows the last one.
    pub loop_start: u32,
}

/// What a label says of its relation.
pub fn kind_of(label: &[u8]) -> Kind {
    if label.first().copied() == Some(b'$') {
        Kind::Parameter
    } else if label.contains(&b'.') {
        Kind::Field
    } else {
        Kind::Sig
    }
}

/// How long the pieces are into which tuples of so many columns are cut; without tuples there is nothing to be cut.
pub fn width_of(columns: usize) -> usize
    ensures { 0 < result }
{
    if columns == 0 { 1 } else { columns }
}

impl Table {
    /// The table of these atoms, so many of which are a tuple each.
    pub fn new(columns: usize, atoms: Vec<u32>) -> Table {
        Table { columns, atoms }
    }

    /// How many columns the tuples have, or 0 where there is none.
    pub fn columns(&self) -> usize {
        self.columns
    }

    /// The atoms of the tuples, one tuple behind another.
    pub fn atoms(&self) -> &[u32] {
        self.atoms.as_slice()
    }

    /// The tuples.
    pub fn tuples(&self) -> Chunks<'_, u32>
        ensures { 0 < chunks_size result }
    {
        self.atoms.as_slice().chunks(width_of(self.columns))
    }

    /// Whether the tuples are the same, and in the same order.
    pub fn is_same(&self, other: &Table) -> bool {
        self.columns == other.columns && self.atoms.as_slice() == other.atoms.as_slice()
    }

    /// The tuples as a set.
    fn tuple_set(&self, alloc: Global) -> Result<HashSet<&[u32]>, AllocError> {
        let mut set: HashSet<&[u32]> = HashSet::new(alloc);
        for tuple in self.tuples() {
            set.insert(tuple)?;
        }
        Ok(set)
    }

    /// Whether some tuple stands there twice.
    pub fn has_repeats(&self, alloc: Global) -> Result<bool, AllocError> {
        let mut set: HashSet<&[u32]> = HashSet::new(alloc);
        for tuple in self.tuples() {
            if !set.insert(tuple)? {
                return Ok(true);
            }
        }
        Ok(false)
    }
}

/// For each tuple of a table, in order, whether another table doesn't have it.
pub fn gone(alloc: Global, table: &Table, other: &Table) -> Result<Vec<bool>, AllocError> {
    let mut all = Vec::new(alloc);
    let set = other.tuple_set(alloc)?;
    for tuple in table.tuples() {
        all.push(!set.contains(tuple))?;
    }
    Ok(all)
}
