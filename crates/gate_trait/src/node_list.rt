//! A list of nodes, in order.

ghost use Rattle.std.specs.Prelude.{◌≡◌, ◌==◌, ◌<◌, [], ◌∷◌, ◌++◌, length, OnOk, OnErr, slice_get, Some};

use crate::node::Node;
use std::alloc::{AllocError, Global};
use std::marker::Model;

/// A list of nodes, in order.
#[derive(Drop, Debug)]
pub struct NodeList {
    items: Vec<Node>,
}

impl Model for NodeList {
    ghost use Rattle.std.specs.Prelude.{List};
    ghost use Rattle.gate_trait.specs.declared.node.Node.{Node as CircuitNode};

    ghost Value = { List CircuitNode };

    ghost view = { λ list. list.items.items };
}

impl NodeList {
    /// The empty list.
    pub fn new(alloc: Global) -> NodeList
        ensures { result ≡ [] }
    {
        NodeList {
            items: Vec::new(alloc),
        }
    }

    /// Adds a node at the end. Its only error is want of memory, which leaves the list as it was.
    pub fn push(&mut self, item: Node) -> Result<(), AllocError>
        ensures ok { OnOk result (self.new ≡ self.old ++ item ∷ []) }
        ensures err { OnErr result (self.new ≡ self.old) }
    {
        self.items.push(item)?;
        Ok(())
    }

    /// How many nodes the list has.
    pub fn len(&self) -> usize
        ensures { result ≡ length self.now }
    {
        self.items.len()
    }

    /// Whether the list has no node.
    pub fn is_empty(&self) -> bool
        ensures { result ≡ (length self.now == 0) }
    {
        self.items.is_empty()
    }

    /// The node at this place, counted from 0.
    pub fn get(&self, place: usize) -> &Node
        requires { place < length self.now }
        ensures { slice_get self.now place ≡ Some result.now }
    {
        &self.items[place]
    }

    /// A copy of the node at this place, counted from 0.
    pub fn node(&self, place: usize) -> Node
        requires { place < length self.now }
        ensures { slice_get self.now place ≡ Some result }
    {
        self.items[place]
    }

    /// The nodes in order.
    pub fn as_slice(&self) -> &[Node]
        ensures { result.now ≡ self.now }
    {
        self.items.as_slice()
    }
}
