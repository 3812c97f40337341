//! What the whole product speaks of: nodes, links, segments, packets, messages, and the faults.
#![tactic(auto)]

pub mod change;
pub mod fault;
pub mod link;
pub mod message;
pub mod node;
pub mod node_set;
pub mod nodes;
pub mod packet;
pub mod segment;
pub mod segments;

pub use change::Change;
pub use fault::{DropReason, ReadFault, Refusal};
pub use link::{Link, LinkId};
pub use message::{Message, Sent, Switched};
pub use node::{MAX_NODES, NodeId};
pub use node_set::{Members, NodeSet};
pub use nodes::Nodes;
pub use packet::Packet;
pub use segment::Segment;
pub use segments::{Segments, SenderSegments};
