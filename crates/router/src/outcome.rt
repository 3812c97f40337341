use types::{DropReason, NodeId, Packet};

/// What becomes of a packet at a router.
#[derive(Clone, Copy)]
pub enum Outcome {
    Delivered,
    Sent { to: NodeId, packet: Packet },
    Dropped(DropReason),
}
