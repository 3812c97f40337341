use crate::node::NodeId;

/// One instruction of a packet's segment list (RFC 8402).
#[derive(Clone, Copy, PartialEq, Eq, Debug)]
pub enum Segment {
    /// Go to a node, by the next hops.
    Node(NodeId),
    /// Go over the link from `from` to its neighbour `to`.
    Link { from: NodeId, to: NodeId },
}
