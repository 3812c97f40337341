ghost use Rattle.std.specs.Prelude.{◌≡◌, ◌<◌, ◌↔◌, IsTrue, Some, Ok, Err, if◌then◌else◌, decimal, nat_lt};
ghost use Rattle.types.specs.declared.fault.ReadFault.TheVariants.{NodeOutOfRange};

use crate::fault::ReadFault;
use crate::nodes::Nodes;
use std::fmt;
use std::marker::Model;

/// The most nodes that a network has.
pub const MAX_NODES: usize = 64;

/// A node by its number, which counts from 0.
#[derive(Clone, Copy, PartialEq, Eq, PartialOrd, Ord, Debug)]
pub struct NodeId(pub u8);

impl Model for NodeId {
    ghost use Rattle.std.specs.Prelude.{ℕ};

    ghost Value = { ℕ };

    ghost view = { λ node. node.0 };

    ghost inverse = { λ number. record { 0 = number } };
}

impl NodeId {
    /// Returns the nodes below `nodes`, rising.
    pub fn all(nodes: u8) -> Nodes
        ensures from_the_first { result.next ≡ 0 }
        ensures to_the_last { result.end ≡ nodes }
    {
        Nodes {
            next: 0,
            end: nodes,
        }
    }

    /// Returns its number.
    pub fn number(self) -> u8
        ensures { result ≡ self }
    {
        self.0
    }

    /// Returns its number as an index.
    pub fn index(self) -> usize
        ensures { result ≡ self }
    {
        self.0 as usize
    }

    /// Returns whether it is one of the nodes below `nodes`.
    pub fn is_below(self, nodes: u8) -> bool
        ensures { IsTrue result ↔ self < nodes }
    {
        self.0 < nodes
    }

    /// Fails where it is not one of the nodes below `nodes`.
    pub fn check(self, nodes: u8) -> Result<(), ReadFault>
        ensures { result ≡ (if nat_lt self nodes then Ok tt else Err NodeOutOfRange) }
    {
        if self.is_below(nodes) {
            Ok(())
        } else {
            Err(ReadFault::NodeOutOfRange)
        }
    }
}

impl fmt::Display for NodeId {
    ghost output = { λ node. Some (decimal node) };

    fn fmt<W: fmt::Write>(&self, f: &mut fmt::Formatter<W>) -> fmt::Result {
        write!(f, "{}", self.0)
    }
}
