//! Lists of nodes, the nodes of each side by side in memory of its own.

ghost use Rattle.std.specs.Prelude.{◌≡◌, ◌<◌, [], length, replicate, slice_index, slice_set, take, map, filter, IfOk, OnOk, OnErr};
ghost use Rattle.sat_lists.specs.Nodes.{rows, row_at, put_on, stays};

use std::alloc::{AllocError, Global};

/// So many empty lists.
#[tactic(auto, using(crate::proofs::Holding::rows_more))]
pub fn empty_lists(alloc: Global, count: usize) -> Result<Vec<Vec<u32>>, AllocError>
    ensures { IfOk result (λ v. rows v.items ≡ replicate count []) }
{
    let mut lists = Vec::new(alloc);
    for _place in 0..count {
        lists.push(Vec::new(alloc))?;
    }
    Ok(lists)
}

/// The node at a place of a list.
#[inline]
pub fn read_at(lists: &Vec<Vec<u32>>, list: usize, place: usize) -> u32
    requires in_lists { list < length lists.now.items }
    requires in_list { place < length (row_at (rows lists.now.items) list) }
    ensures { result ≡ slice_index (row_at (rows lists.now.items) list) place }
{
    let row = &lists[list];
    row[place]
}

/// Writes a node to a place of a list.
#[inline]
pub fn write_at(lists: &mut Vec<Vec<u32>>, list: usize, place: usize, node: u32)
    requires in_lists { list < length lists.old.items }
    requires in_list { place < length (row_at (rows lists.old.items) list) }
    ensures { rows lists.new.items ≡ slice_set (rows lists.old.items) list
        (slice_set (row_at (rows lists.old.items) list) place node) }
{
    let row = &mut lists[list];
    row[place] = node;
}

/// Adds a node at the end of a list. The only error is want of memory.
#[inline]
pub fn push_at(lists: &mut Vec<Vec<u32>>, list: usize, node: u32) -> Result<(), AllocError>
    requires { list < length lists.old.items }
    ensures ok { OnOk result (rows lists.new.items ≡ put_on (rows lists.old.items) list node) }
    ensures err { OnErr result (rows lists.new.items ≡ rows lists.old.items) }
{
    lists[list].push(node)?;
    Ok(())
}

/// How many nodes a list has.
#[inline]
pub fn len_at(lists: &Vec<Vec<u32>>, list: usize) -> usize
    requires { list < length lists.now.items }
    ensures { result ≡ length (row_at (rows lists.now.items) list) }
{
    lists[list].len()
}

/// Cuts a list to its first so many nodes, where there is such a list.
#[inline]
pub fn cut_at(lists: &mut Vec<Vec<u32>>, list: usize, len: usize)
    ensures { rows lists.new.items ≡ slice_set (rows lists.old.items) list
        (take len (row_at (rows lists.old.items) list)) }
{
    if list < lists.len() {
        lists[list].truncate(len);
    }
}

/// Whether a node's pair isn't marked.
fn does_stay(marks: &[bool], node: u32) -> bool
    ensures { result ≡ stays marks.now node }
{
    let pair = node as usize / 2;
    pair >= marks.len() || !marks[pair]
}

/// Takes the nodes of marked pairs out of a list.
fn retain_in(row: &mut Vec<u32>, marks: &[bool])
    ensures { row.new.items ≡ filter (stays marks.now) row.old.items }
{
    let mut kept = 0;
    for place in 0..row.len() {
        let node = row[place];
        if does_stay(marks, node) {
            row[kept] = node;
            kept += 1;
        }
    }
    row.truncate(kept);
}

/// Takes the nodes of marked pairs out of all lists.
pub fn retain_all(lists: &mut Vec<Vec<u32>>, marks: &[bool])
    ensures { rows lists.new.items ≡ map (filter (stays marks.now)) (rows lists.old.items) }
{
    for list in 0..lists.len() {
        retain_in(&mut lists[list], marks);
    }
}
