use types::{LinkId, MAX_NODES, NodeId, NodeSet};

/// What exists only while a change is under way at a router: from when it learns that a link has failed until it has switched
/// for all destinations.
#[derive(Drop)]
pub(crate) struct Transition {
    pub link: LinkId,
    /// By destination: its next hop without the link.
    pub hops: [Option<NodeId>; MAX_NODES],
    /// The destinations for which it has switched.
    pub switched: NodeSet,
    /// By destination: the neighbours whose Switched message is waited for.
    pub pending: [NodeSet; MAX_NODES],
}

impl Transition {
    ghost use Rattle.std.specs.Prelude.{◌≡◌, ◌<◌};
    ghost use Rattle.router.specs.Transition.{transition_of};

    /// Has it switched for a destination?
    pub fn has_switched(&self, destination: NodeId) -> bool
        ensures { result ≡ (transition_of self.now).switched destination }
    {
        self.switched.contains(destination)
    }

    /// Does it wait for a neighbour to switch for a destination?
    pub fn waits_for(&self, destination: NodeId, neighbour: NodeId) -> bool
        ensures { result ≡ (transition_of self.now).pending destination neighbour }
    {
        destination.index() < MAX_NODES && self.pending[destination.index()].contains(neighbour)
    }
}
