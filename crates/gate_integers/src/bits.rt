//! The bits of an integer: a list of nodes, the least first.

ghost use Rattle.std.specs.Prelude.{◌≡◌, ◌==◌, ◌<◌, [], ◌∷◌, ◌++◌, length, OnOk, OnErr, slice_get, reverse, Some};

use gate_trait::Node;
use std::alloc::{AllocError, Global};
use std::marker::Model;

/// The bits of an integer in two's complement, the least first.
#[derive(Drop, Debug)]
pub struct Bits {
    nodes: Vec<Node>,
}

impl Model for Bits {
    ghost use Rattle.std.specs.Prelude.{List};
    ghost use Rattle.gate_trait.specs.declared.node.Node.{Node as CircuitNode};

    ghost Value = { List CircuitNode };

    ghost view = { λ bits. bits.nodes.items };
}

impl Bits {
    /// No bit.
    pub fn new(alloc: Global) -> Bits
        ensures { result ≡ [] }
    {
        Bits {
            nodes: Vec::new(alloc),
        }
    }

    /// Adds a bit above the others. Its only error is want of memory, which leaves them as they were.
    pub fn push(&mut self, item: Node) -> Result<(), AllocError>
        ensures ok { OnOk result (self.new ≡ self.old ++ item ∷ []) }
        ensures err { OnErr result (self.new ≡ self.old) }
    {
        self.nodes.push(item)?;
        Ok(())
    }

    /// How many bits there are: the width.
    pub fn len(&self) -> usize
        ensures { result ≡ length self.now }
    {
        self.nodes.len()
    }

    /// Whether there is no bit.
    pub fn is_empty(&self) -> bool
        ensures { result ≡ (length self.now == 0) }
    {
        self.nodes.is_empty()
    }

    /// The bit at this place, the least at 0.
    pub fn get(&self, place: usize) -> &Node
        requires { place < length self.now }
        ensures { slice_get self.now place ≡ Some result.now }
    {
        &self.nodes[place]
    }

    /// The bits, the least first.
    pub fn nodes(&self) -> &[Node]
        ensures { result.now ≡ self.now }
    {
        self.nodes.as_slice()
    }

    /// The bits, in the other order.
    pub fn reverse(&mut self)
        ensures { self.new ≡ reverse self.old }
    {
        self.nodes.reverse();
    }
}
