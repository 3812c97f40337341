ghost use Rattle.std.specs.Prelude.{◌≡◌, ℕ, ◌↔◌, IsTrue, false, not, ◌&&◌, ◌||◌, ◌==◌, nat_lt};
ghost use Rattle.types.specs.NodeSets.{has, IsFirst, TakenFirst};

use crate::node::NodeId;
use std::marker::Model;

/// A set of nodes below 64, as the bits of a number: bit u is set where node u is in it.
#[derive(Clone, Copy, PartialEq, Eq, Debug)]
pub struct NodeSet(u64);

impl NodeSet {
    /// Returns a set of no nodes.
    pub fn empty() -> NodeSet
        ensures { (u : ℕ) → has result u ≡ false }
    {
        NodeSet(0)
    }

    /// Returns the set of the nodes below `n`, and below 64.
    pub fn below(n: u8) -> NodeSet
        ensures { (v : ℕ) → has result v ≡ (nat_lt v n && nat_lt v 64) }
    {
        if n >= 64 {
            return NodeSet(u64::MAX);
        }
        NodeSet((1u64 << n) - 1)
    }

    /// Returns the set of `u` alone; of no nodes where it is not below 64.
    pub fn only(u: NodeId) -> NodeSet
        ensures { (v : ℕ) → has result v ≡ (v == u && nat_lt v 64) }
    {
        if !u.is_below(64) {
            return NodeSet(0);
        }
        NodeSet(1u64 << u.number())
    }

    /// Returns whether `u` is in the set.
    pub fn contains(self, u: NodeId) -> bool
        ensures { result ≡ has self u }
    {
        u.is_below(64) && (self.0 >> u.number()) & 1 == 1
    }

    /// Returns whether no node is in it.
    pub fn is_empty(self) -> bool
        ensures { IsTrue result ↔ ((u : ℕ) → has self u ≡ false) }
    {
        self.0 == 0
    }

    /// Returns the lowest node in it, if there is one.
    pub fn first(self) -> Option<NodeId>
        ensures { IsFirst self result }
    {
        if self.0 == 0 {
            return None;
        }
        Some(NodeId(self.0.trailing_zeros() as u8))
    }

    /// Adds `u`, if it is below 64.
    pub fn insert(&mut self, u: NodeId)
        ensures { (v : ℕ) → has self.new v ≡ ((v == u && nat_lt v 64) || has self.old v) }
    {
        *self = NodeSet(NodeSet::only(u).0 | self.0);
    }

    /// Takes `u` out.
    pub fn remove(&mut self, u: NodeId)
        ensures { (v : ℕ) → has self.new v ≡ (has self.old v && not (v == u)) }
    {
        *self = NodeSet(self.0 & !NodeSet::only(u).0);
    }

    /// Takes the lowest node out, if there is one.
    pub fn take_first(&mut self) -> Option<NodeId>
        ensures { TakenFirst self.old self.new result }
    {
        let u = self.first()?;
        *self = NodeSet(self.0 & (self.0 - 1));
        Some(u)
    }

    /// Returns its nodes, the lowest first.
    pub fn iter(self) -> Members
        ensures { result ≡ self }
    {
        Members { left: self }
    }

    /// Returns its nodes and those of the other.
    pub fn or(self, other: NodeSet) -> NodeSet
        ensures { (v : ℕ) → has result v ≡ (has self v || has other v) }
    {
        NodeSet(self.0 | other.0)
    }

    /// Returns those of its nodes that are in the other, too.
    pub fn and(self, other: NodeSet) -> NodeSet
        ensures { (v : ℕ) → has result v ≡ (has self v && has other v) }
    {
        NodeSet(self.0 & other.0)
    }

    /// Returns those of its nodes that are not in the other.
    pub fn minus(self, other: NodeSet) -> NodeSet
        ensures { (v : ℕ) → has result v ≡ (has self v && not (has other v)) }
    {
        NodeSet(self.0 & !other.0)
    }
}

impl IntoIterator for NodeSet {
    type Item = NodeId;

    type IntoIter = Members;

    ghost into_iter_gives = { λ set members. members ≡ set };

    fn into_iter(self) -> Members {
        self.iter()
    }
}

/// The nodes of a set that are still to come, the lowest first.
#[derive(Drop)]
pub struct Members {
    left: NodeSet,
}

impl Model for Members {
    ghost use Rattle.types.specs.declared.node_set.NodeSet.{NodeSet};

    ghost Value = { NodeSet };

    ghost view = { λ members. members.left };

    ghost inverse = { λ set. record { left = set } };
}

impl Iterator for Members {
    type Item = NodeId;

    ghost use Rattle.std.specs.Prelude.{count_ones};
    ghost use Rattle.std.specs.Iterator.{at_most};

    ghost next_gives = { λ old first new. TakenFirst old new first };

    ghost remaining = { λ set. at_most (count_ones set.0) };

    fn next(&mut self) -> Option<NodeId> {
        self.left.take_first()
    }
}
