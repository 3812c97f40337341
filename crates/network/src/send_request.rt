use types::{NodeId, SenderSegments};

/// A packet to be sent: where it starts, its destination, and its sender's segments.
#[derive(Clone, Copy, PartialEq, Eq, Debug)]
pub struct SendRequest {
    pub start: NodeId,
    pub destination: NodeId,
    pub segments: SenderSegments,
}
