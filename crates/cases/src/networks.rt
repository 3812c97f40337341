// Small networks that several tests read, all costs 1, and what is done in them.
use links::Topology;
use router::Router;
use std::alloc::Global;
use std::test::Fail;
use types::{LinkId, NodeId, ReadFault, Segment, SenderSegments};
use wire::parse_links;

// 0-1, 0-3, 1-2, 2-3
pub(crate) const RING: &[u8] = &[1, 4, 0, 4, 0, 1, 0, 1, 0, 3, 0, 1, 1, 2, 0, 1, 2, 3, 0, 1];

// 0-1, 0-2, 1-2
pub(crate) const TRIANGLE: &[u8] = &[1, 3, 0, 3, 0, 1, 0, 1, 0, 2, 0, 1, 1, 2, 0, 1];

// 0-1
pub(crate) const PAIR: &[u8] = &[1, 2, 0, 1, 0, 1, 0, 1];

// The link 0-1, which fails.
pub(crate) const FAILED: LinkId = LinkId {
    a: NodeId(0),
    b: NodeId(1),
};

// The segments that a sender puts on a packet.
pub(crate) fn segments_of(list: &[Option<Segment>]) -> Result<SenderSegments, ReadFault> {
    let mut segments = SenderSegments::new();
    for segment in list {
        if let Some(segment) = segment {
            segments.push(*segment)?;
        }
    }
    Ok(segments)
}

// The network that bytes say.
pub(crate) fn topology_of(heap: Global, bytes: &[u8]) -> Result<Topology, Fail> {
    Ok(parse_links(heap, bytes)?)
}

// The router at a node of it.
pub(crate) fn router_of(heap: Global, bytes: &[u8], me: NodeId) -> Result<Router, Fail> {
    let topology = topology_of(heap, bytes)?;
    if !me.is_below(topology.nodes()) {
        return Err(Fail::new("there is no such node"));
    }
    Ok(Router::new(heap, &topology, me))
}
