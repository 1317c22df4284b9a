//! A matrix: a sparse map from tuples to nodes, in the order of the tuples.

ghost use Rattle.std.specs.Prelude.{◌≡◌, ◌<◌, ◌≤◌, ℕ, List, [], All, length, map, IfOk, OnOk, OnErr, Some, slice_get, if◌then◌else◌};
ghost use Rattle.core_tuples.specs.Sets.{is_same};
ghost use Rattle.core_tuples.specs.Index.{IsNumber};
ghost use Rattle.gate_matrix.specs.Matrices.{IsMatrix, IsPut, node_at};

use crate::entry::Entry;
use crate::place::{is_row, node_of, place_of};
use core_tuples::{Keyed, Tuple};
use gate_trait::Node;
use std::alloc::{AllocError, Global};
use std::marker::Model;

/// A map from tuples to nodes. It means the set of the tuples whose nodes are true: a tuple without
/// a node isn't in the set. The tuples have one number of columns, from one to nine, and numbers
/// below 16,384, and stand in the order of tuple sets.
#[derive(Drop)]
pub struct Matrix {
    arity: u32,
    entries: Vec<Entry>,
}

impl Model for Matrix {
    ghost use Rattle.gate_matrix.specs.Matrices.{MatrixEntries, IsMatrix};

    ghost Value = { MatrixEntries };

    ghost view = { λ m. record { arity = m.arity; entries = m.entries.items } };

    ghost invariant = { λ m. IsMatrix (record { arity = m.arity; entries = m.entries.items }) };
}

impl Matrix {
    ghost use Rattle.gate_matrix.specs.Matrices.{MatrixEntries, IsMatrix, IsPut};

    /// The matrix without a tuple, of this many columns.
    pub fn empty(alloc: Global, arity: u32) -> Matrix
        requires least { 1 ≤ arity }
        requires most { arity ≤ 9 }
        ensures { result ≡ record { arity = arity; entries = [] } }
    {
        Matrix {
            arity,
            entries: Vec::new(alloc),
        }
    }

    /// The matrix of these entries, which are in order.
    pub(crate) fn sorted(arity: u32, entries: Vec<Entry>) -> Matrix
        requires { IsMatrix (record { arity = arity; entries = entries.items }) }
        ensures { result ≡ record { arity = arity; entries = entries.items } }
    {
        Matrix { arity, entries }
    }

    /// Gives the tuple this node; where the tuple has a node, the new one takes its place. Where
    /// memory is wanting, the matrix is as before.
    pub fn put(&mut self, tuple: Tuple, node: Node) -> Result<(), AllocError>
        requires columns { length tuple ≡ self.old.arity }
        requires numbers { All IsNumber tuple }
        ensures ok { OnOk result (IsPut self.old tuple node self.new) }
        ensures err { OnErr result (self.new ≡ self.old) }
    {
        // for the proof: a field is read, so that the invariant of the matrix is at hand
        let _ = &self.arity;
        put_entry(&mut self.entries, tuple, node)
    }

    /// The number of columns.
    pub fn arity(&self) -> u32
        ensures columns { result ≡ self.now.arity }
        ensures matrix { IsMatrix self.now }
    {
        self.arity
    }

    /// How many tuples have nodes.
    pub fn len(&self) -> usize
        ensures count { result ≡ length self.now.entries }
        ensures matrix { IsMatrix self.now }
    {
        self.entries.len()
    }

    /// The tuple at this place, in order.
    pub fn tuple(&self, place: usize) -> &Tuple
        requires { place < length self.now.entries }
        ensures { slice_get (map (λ e. e.tuple) self.now.entries) place ≡ Some result.now }
    {
        self.entries[place].tuple.tuple()
    }

    /// The tuple's node, if it has one.
    pub fn node(&self, tuple: &Tuple) -> Option<Node>
        ensures { result ≡ node_at self.now.entries tuple.now }
    {
        if is_row(tuple, self.arity) {
            node_of(&self.entries, tuple)
        } else {
            None
        }
    }

    /// The tuples with their nodes, in order.
    pub fn entries(&self) -> &[Entry]
        ensures all { result.now ≡ self.now.entries }
        ensures matrix { IsMatrix self.now }
    {
        // for the proof: a field is read, so that the invariant of the matrix is at hand
        let _ = &self.arity;
        &self.entries
    }

    /// An equal matrix.
    pub fn copy(&self, alloc: Global) -> Result<Matrix, AllocError>
        ensures { IfOk result (λ m. m ≡ self.now) }
    {
        // for the proof: a field is read, so that the invariant of the matrix is at hand
        let _ = &self.arity;
        Ok(Matrix {
            arity: self.arity,
            entries: copies(alloc, &self.entries)?,
        })
    }
}

/// Lets a tuple go.
fn discard(_tuple: Tuple) {}

/// Gives the tuple this node among entries in order; where it has a node, the new one takes its
/// place.
fn put_entry(entries: &mut Vec<Entry>, tuple: Tuple, node: Node) -> Result<(), AllocError>
    requires matrix { IsMatrix (record { arity = length tuple; entries = entries.old.items }) }
    requires numbers { All IsNumber tuple }
    ensures matrix { OnOk result (IsMatrix (record
        { arity = length tuple; entries = entries.new.items })) }
    ensures ok { OnOk result (IsPut (record { arity = length tuple; entries = entries.old.items })
        tuple node (record { arity = length tuple; entries = entries.new.items })) }
    ensures err { OnErr result (entries.new.items ≡ entries.old.items) }
{
    match place_of(entries, &tuple) {
        Ok(place) => {
            discard(tuple);
            entries[place].node = node;
            Ok(())
        }
        Err(place) => {
            let tuple = Keyed::new(tuple);
            entries.insert(place, Entry { tuple, node })?;
            Ok(())
        }
    }
}

/// Copies of the entries.
fn copies(alloc: Global, entries: &[Entry]) -> Result<Vec<Entry>, AllocError>
    ensures { IfOk result (λ v. v.items ≡ entries.now) }
{
    let mut all = Vec::new(alloc);
    for entry in entries {
        all.push(entry.copy(alloc)?)?;
    }
    Ok(all)
}
