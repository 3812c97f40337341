use crate::link::LinkId;
use crate::node::NodeId;

/// Router `from` has switched to its new next hop for the destination, since that link has failed.
#[derive(Clone, Copy, PartialEq, Eq, Debug)]
pub struct Switched {
    pub from: NodeId,
    pub destination: NodeId,
    pub link: LinkId,
}

/// What routers say to each other.
#[derive(Clone, Copy, PartialEq, Eq, Debug)]
pub enum Message {
    /// A link has failed.
    LinkDown(LinkId),
    /// A router has switched.
    Switched(Switched),
}

/// A message from a router to a neighbour.
#[derive(Clone, Copy, PartialEq, Eq, Debug)]
pub struct Sent {
    pub from: NodeId,
    pub to: NodeId,
    pub message: Message,
}
