//! Reading the tuples of a line, which stand in order.

ghost use Rattle.std.specs.Prelude.{◌≡◌, ◌≤◌, ◌<◌, [], ◌∷◌, ◌++◌, length, All, IfOk, IfSome, OnOk, OnErr, Some, None, true, option_map, if◌then◌else◌};
ghost use Rattle.core_tuples.specs.Index.{IsNumber};
ghost use Rattle.answer_trace.specs.Reading.{next_atom, further_atom, next_tuple, comes_after, separator, one_more, tuples_of, set_of, line_set, hidden_set};

use crate::atom_index::AtomIndex;
use crate::label::RelationLabel;
use crate::words::{after, atom_length};
use core_tuples::{Tuple, TupleSet};
use std::alloc::{AllocError, Global};
use std::cmp::Ordering;

/// The atom with which a text begins, and what follows it.
fn read_atom<'a>(index: &AtomIndex, text: &'a [u8]) -> Option<(u32, &'a [u8])>
    ensures atom { option_map (λ found. (found.0, found.1.now)) result
        ≡ next_atom index.now text.now }
    ensures bound { IfSome result (λ found. found.0 < 16384) }
{
    let (atom, rest) = text.split_at(atom_length(text));
    match index.find(atom) {
        None => None,
        Some(number) => Some((number, rest)),
    }
}

/// The further atom with which a text begins, behind an arrow, and what follows it.
fn read_further<'a>(index: &AtomIndex, text: &'a [u8]) -> Option<(u32, &'a [u8])>
    ensures atom { option_map (λ found. (found.0, found.1.now)) result
        ≡ further_atom index.now text.now }
    ensures bound { IfSome result (λ found. found.0 < 16384) }
{
    match after(text, b"->".as_slice()) {
        None => None,
        Some(rest) => read_atom(index, rest),
    }
}

/// Reads the tuple with which a text begins, and answers what follows it.
#[tactic(auto, using(crate::proofs::Steps::further_more, crate::proofs::Steps::further_none, crate::proofs::Steps::further_end))]
fn read_tuple<'a>(
    index: &AtomIndex,
    columns: u32,
    text: &'a [u8],
    tuple: &mut Tuple,
) -> Result<Option<&'a [u8]>, AllocError>
    requires empty { tuple.old ≡ [] }
    requires some { 1 ≤ columns }
    ensures tuple { IfOk result (λ o. option_map (λ rest. (tuple.new, rest.now)) o
        ≡ next_tuple index.now columns text.now) }
    ensures columns { IfOk result (λ o. IfSome o (λ rest. length tuple.new ≡ columns)) }
    ensures numbers { IfOk result (λ o. IfSome o (λ rest. All IsNumber tuple.new)) }
{
    let Some((first, behind)) = read_atom(index, text) else {
        return Ok(None)
    };
    tuple.push(first)?;
    let mut rest = behind;
    for _column in 1..columns {
        let Some((number, next)) = read_further(index, rest) else {
            return Ok(None)
        };
        tuple.push(number)?;
        rest = next;
    }
    Ok(Some(rest))
}

/// Whether a tuple comes after each tuple of a set.
fn is_after(set: &TupleSet, tuple: &Tuple) -> bool
    ensures { result ≡ comes_after set.now.tuples tuple.now }
{
    let count = set.len();
    count == 0 || set.tuple(count - 1).compare(tuple) == Ordering::Less
}

/// What stands before a tuple of a line.
fn separator(set: &TupleSet) -> &[u8]
    ensures { result.now ≡ separator set.now.tuples }
{
    if set.len() == 0 {
        b" ".as_slice()
    } else {
        b", ".as_slice()
    }
}

/// Adds a tuple that comes after each tuple of a set.
#[tactic(auto, using(crate::proofs::Ends::put_behind))]
fn put_last(set: &mut TupleSet, tuple: Tuple) -> Result<(), AllocError>
    requires columns { length tuple ≡ set.old.arity }
    requires numbers { All IsNumber tuple }
    requires last { comes_after set.old.tuples tuple ≡ true }
    ensures ok { OnOk result (set.new ≡ record {
      arity = set.old.arity;
      tuples = set.old.tuples
          ++ tuple ∷ [];
    }) }
    ensures err { OnErr result (set.new ≡ set.old) }
{
    // for the proof: this call's clause says that it is a set of tuples
    let _before = set.len();
    set.insert(tuple)?;
    // for the proof: this call's clause says that it is a set of tuples still
    let _count = set.len();
    Ok(())
}

/// Reads the next tuple of a line into a set, and answers what is left of the line. There is `None`
/// where no further tuple stands there.
fn read_next<'a>(
    alloc: Global,
    index: &AtomIndex,
    columns: u32,
    text: &'a [u8],
    set: &mut TupleSet,
) -> Result<Option<&'a [u8]>, AllocError>
    requires arity { set.old.arity ≡ columns }
    requires some { 1 ≤ columns }
    ensures arity { set.new.arity ≡ columns }
    ensures more { IfOk result (λ o. option_map (λ rest. (set.new.tuples, rest.now)) o
        ≡ one_more index.now columns set.old.tuples text.now) }
{
    let Some(rest) = after(text, separator(set)) else {
        return Ok(None)
    };
    let mut tuple = Tuple::new(alloc);
    let Some(next) = read_tuple(index, columns, rest, &mut tuple)? else {
        return Ok(None)
    };
    if !is_after(set, &tuple) {
        return Ok(None);
    }
    put_last(set, tuple)?;
    Ok(Some(next))
}

/// Reads the tuples of a line into an empty set. It answers whether the line has just tuples.
#[tactic(auto, using(crate::proofs::Steps::tuples_more, crate::proofs::Steps::tuples_none, crate::proofs::Steps::tuples_over, crate::proofs::Steps::tuples_spent))]
fn read_tuples(
    alloc: Global,
    index: &AtomIndex,
    columns: u32,
    text: &[u8],
    set: &mut TupleSet,
) -> Result<bool, AllocError>
    requires empty { set.old ≡ record { arity = columns; tuples = [] } }
    requires some { 1 ≤ columns }
    ensures arity { set.new.arity ≡ columns }
    ensures tuples { IfOk result (λ b. (if b then Some set.new.tuples else None)
        ≡ tuples_of index.now columns (length text.now) [] text.now) }
{
    let mut rest = text;
    for _count in 0..text.len() {
        if rest.is_empty() {
            return Ok(true);
        }
        match read_next(alloc, index, columns, rest, set)? {
            None => return Ok(false),
            Some(next) => rest = next,
        }
    }
    Ok(rest.is_empty())
}

/// Reads the tuples of a line. There is `None` where it has something else.
fn read_set(
    alloc: Global,
    index: &AtomIndex,
    columns: u32,
    text: &[u8],
) -> Result<Option<TupleSet>, AllocError>
    ensures { IfOk result (λ o. o ≡ set_of index.now columns text.now) }
{
    // ArityLimit, S47: a relation has at most nine columns.
    if columns < 1 || columns > 9 {
        return Ok(None);
    }
    let mut set = TupleSet::empty(alloc, columns);
    if read_tuples(alloc, index, columns, text, &mut set)? {
        Ok(Some(set))
    } else {
        Ok(None)
    }
}

/// The set of no tuple, for a relation that has no line.
pub fn no_tuple(alloc: Global, columns: u32) -> Option<TupleSet>
    ensures { result ≡ hidden_set columns None }
{
    // ArityLimit, S47: a relation has at most nine columns.
    if columns < 1 || columns > 9 {
        return None;
    }
    Some(TupleSet::empty(alloc, columns))
}

/// The set of an atom, for a relation that has no line.
pub fn one_atom(alloc: Global, columns: u32, atom: u32) -> Result<Option<TupleSet>, AllocError>
    ensures { IfOk result (λ o. o ≡ hidden_set columns (Some atom)) }
{
    // Atoms, S66: there are at most 16,384 atoms and integers.
    if columns != 1 || atom >= 16384 {
        return Ok(None);
    }
    let mut set = TupleSet::empty(alloc, columns);
    put_last(&mut set, Tuple::of(alloc, &[atom])?)?;
    Ok(Some(set))
}

/// Reads the line of a relation. There is `None` where it is none.
pub fn read_line(
    alloc: Global,
    index: &AtomIndex,
    relation: &RelationLabel,
    line: &[u8],
) -> Result<Option<TupleSet>, AllocError>
    ensures { IfOk result (λ o. o ≡ line_set index.now relation.now line.now) }
{
    let Some(behind) = after(line, relation.label.text().as_bytes()) else {
        return Ok(None)
    };
    let Some(rest) = after(behind, b" =".as_slice()) else {
        return Ok(None)
    };
    read_set(alloc, index, relation.columns, rest)
}
