//! Lists of nodes, one of which at a time is walked while nodes of it go to other lists.
//!
//! The nodes of a list lie side by side in memory, so a walk reads them in turn. It has a place
//! that is read next, and one that is written next: a node that stays is written back, behind
//! those that stayed before, and one that leaves goes to the end of its other list.
#![tactic(auto)]

ghost use Rattle.std.specs.Prelude.{◌≡◌, ◌<◌, ◌≤◌, ◌+◌, [], ◌∷◌, length, IfOk, OnErr, OnOk, MatchOption, replicate, drop, vec_len, vec_capacity, ◌++◌};
ghost use Rattle.sat_lists.specs.Nodes.{AreAtRest, added, begun, settled, finished, retained};

mod rows;

use crate::rows::{cut_at, empty_lists, len_at, push_at, read_at, retain_all, write_at};
use std::alloc::{AllocError, Global};
use std::marker::Model;

/// Adds an item at the end of a vector that has room for it.
#[inline]
pub fn push_in_room<T: Drop>(items: &mut Vec<T>, item: T)
    requires { vec_len items.old < vec_capacity items.old }
    ensures items { items.new.items ≡ items.old.items ++ item ∷ [] }
    ensures capacity { vec_capacity items.old ≤ vec_capacity items.new }
{
    if items.push(item).is_err() {
        unreachable!();
    }
}

/// The largest number of a pair's first node, so that a node fits in 32 bits, which keeps the lists in nearer memory.
const LAST_PAIR: usize = 4_294_967_290;

/// Lists of nodes, which are numbers. One list at a time is walked: its nodes are loose until they are settled, each on
/// a list.
#[derive(Drop)]
pub struct NodeLists {
    lists: Vec<Vec<u32>>,
    /// The list that is walked, or how many lists there are.
    walked: usize,
    /// The place of the first loose node on it.
    next: usize,
    /// How many of its first places have nodes that stay.
    kept: usize,
    /// Where it ends.
    last: usize,
}

impl Model for NodeLists {
    ghost use Rattle.sat_lists.specs.Nodes.{Lists, rows, walking, IsWalk};

    ghost Value = { Lists };

    ghost view = { λ s. walking (rows s.lists.items) s.walked s.next s.kept };

    ghost invariant = { λ s. IsWalk (rows s.lists.items) s.walked s.next s.kept s.last };
}

impl NodeLists {
    /// This many empty lists.
    pub fn new(alloc: Global, lists: usize) -> Result<NodeLists, AllocError>
        ensures { IfOk result (λ v. v ≡ record {
          lists = replicate lists [];
          loose = [];
          walked = lists;
        }) }
    {
        let empty = empty_lists(alloc, lists)?;
        Ok(NodeLists {
            lists: empty,
            walked: lists,
            next: 0,
            kept: 0,
            last: 0,
        })
    }

    /// Adds a node at the end of a list, and the next one at the end of another. The only error is want of memory, which
    /// is also that a node doesn't fit in 32 bits.
    pub fn add_pair(&mut self, one: usize, two: usize, node: usize) -> Result<(), AllocError>
        requires at_rest { AreAtRest self.old }
        requires one { one < length self.old.lists }
        requires two { two < length self.old.lists }
        ensures ok { OnOk result (self.new ≡ added (added self.old one node) two (node + 1)) }
        ensures err { OnErr result (self.new ≡ self.old) }
    {
        if node > LAST_PAIR {
            return Err(AllocError);
        }
        let len = len_at(&self.lists, one);
        push_at(&mut self.lists, one, node as u32)?;
        if push_at(&mut self.lists, two, node as u32 + 1).is_err() {
            cut_at(&mut self.lists, one, len);
            return Err(AllocError);
        }
        Ok(())
    }

    /// Begins to walk a list: its nodes are loose.
    #[inline]
    pub fn begin(&mut self, list: usize)
        requires at_rest { AreAtRest self.old }
        requires in_range { list < length self.old.lists }
        ensures { self.new ≡ begun self.old list }
    {
        self.walked = list;
        self.next = 0;
        self.kept = 0;
        self.last = len_at(&self.lists, list);
    }

    /// The first loose node.
    #[inline]
    pub fn first(&self) -> Option<usize>
        ensures { MatchOption result (self.now.loose ≡ [])
            (λ k. self.now.loose ≡ k ∷ drop 1 self.now.loose) }
    {
        if self.next == self.last {
            return None;
        }
        Some(read_at(&self.lists, self.walked, self.next) as usize)
    }

    /// Puts the first loose node back on the walked list.
    #[inline]
    pub fn keep(&mut self)
        requires { 0 < length self.old.loose }
        ensures { self.new ≡ settled self.old self.old.walked }
    {
        let node = read_at(&self.lists, self.walked, self.next);
        write_at(&mut self.lists, self.walked, self.kept, node);
        self.next += 1;
        self.kept += 1;
    }

    /// Puts the first loose node on a list. The only error is want of memory.
    #[inline]
    pub fn settle(&mut self, list: usize) -> Result<(), AllocError>
        requires in_range { list < length self.old.lists }
        requires some_loose { 0 < length self.old.loose }
        ensures ok { OnOk result (self.new ≡ settled self.old list) }
        ensures err { OnErr result (self.new ≡ self.old) }
    {
        if list == self.walked {
            self.keep();
            return Ok(());
        }
        let node = read_at(&self.lists, self.walked, self.next);
        push_at(&mut self.lists, list, node)?;
        self.next += 1;
        Ok(())
    }

    /// Ends the walk, once no node is loose.
    #[inline]
    pub fn finish(&mut self)
        requires { self.old.loose ≡ [] }
        ensures { self.new ≡ finished self.old }
    {
        cut_at(&mut self.lists, self.walked, self.kept);
        self.walked = self.lists.len();
        self.next = 0;
        self.kept = 0;
        self.last = 0;
    }

    /// Takes the nodes 2 i and 2 i + 1 of each marked i out of all lists.
    pub fn retain(&mut self, marks: &[bool])
        requires { AreAtRest self.old }
        ensures { self.new ≡ retained marks.now self.old }
    {
        retain_all(&mut self.lists, marks);
    }
}
