// The ring of four with all costs 1: distances, next hops, paths, and what lay prints.
use crate::networks::{RING, topology_of};
use render::plan;
use routes::{CostMatrix, Routes};
use std::test::Fail;
use types::{LinkId, NodeId};

// From a to d: the distance, the next hop, and whether the path uses the link 0-1.
struct Way {
    a: u8,
    d: u8,
    distance: Option<u32>,
    hop: Option<NodeId>,
    uses: bool,
}

const WAYS: [Way; 7] = [
    Way {
        a: 0,
        d: 0,
        distance: Some(0),
        hop: None,
        uses: false,
    },
    Way {
        a: 0,
        d: 1,
        distance: Some(1),
        hop: Some(NodeId(1)),
        uses: true,
    },
    Way {
        a: 0,
        d: 2,
        distance: Some(2),
        hop: Some(NodeId(1)),
        uses: true,
    },
    Way {
        a: 0,
        d: 3,
        distance: Some(1),
        hop: Some(NodeId(3)),
        uses: false,
    },
    Way {
        a: 3,
        d: 1,
        distance: Some(2),
        hop: Some(NodeId(0)),
        uses: true,
    },
    Way {
        a: 2,
        d: 0,
        distance: Some(2),
        hop: Some(NodeId(1)),
        uses: true,
    },
    Way {
        a: 0,
        d: 4,
        distance: None,
        hop: None,
        uses: false,
    },
];

#[test]
fn ways(rt: HostRuntime) -> Result<(), Fail> {
    let topology = topology_of(rt.alloc(), RING)?;
    let routes = Routes::of(&topology);
    let link = LinkId {
        a: NodeId(1),
        b: NodeId(0),
    };
    for way in WAYS.iter() {
        let (d, a) = (NodeId(way.d), NodeId(way.a));
        assert_eq!(rt; routes.distance(d, a), way.distance);
        assert_eq!(rt; routes.next_hop(d, a), way.hop);
        assert_eq!(rt; routes.uses(link, d, a), way.uses);
    }
    Ok(())
}

#[test]
fn the_longer_path(rt: HostRuntime) -> Result<(), Fail> {
    let topology = topology_of(rt.alloc(), RING)?;
    let path = Routes::of(&topology).path(rt.alloc(), NodeId(1), NodeId(3))?;
    assert_eq!(rt; path.as_slice(), [NodeId(0), NodeId(1)].as_slice());
    Ok(())
}

// What the links cost, and what is found by a slice of distances: no next hop where its length is wrong or there is no
// such node.
#[test]
fn by_what_links_cost(rt: HostRuntime) -> Result<(), Fail> {
    let topology = topology_of(rt.alloc(), RING)?;
    let costs = CostMatrix::of(&topology);
    assert_eq!(rt; costs.nodes(), 4);
    assert_eq!(rt; costs.cost(NodeId(0), NodeId(3)), Some(1));
    assert_eq!(rt; costs.cost(NodeId(0), NodeId(2)), None);
    let mut dist = [7; 4];
    costs.distances(NodeId(1), &mut dist);
    assert_eq!(rt; dist, [1, 0, 1, 2]);
    assert_eq!(rt; costs.next_hop(NodeId(3), &dist), Some(NodeId(0)));
    assert_eq!(rt; costs.next_hop(NodeId(1), &dist), None);
    assert_eq!(rt; costs.next_hop(NodeId(4), &dist), None);
    assert_eq!(rt; costs.next_hop(NodeId(3), &dist[0..3]), None);
    assert_eq!(rt; costs.next_hop(NodeId(3), &[1, 0, 1, 2, 3]), None);
    Ok(())
}

#[test]
fn an_isolated_node(rt: HostRuntime) -> Result<(), Fail> {
    let topology = topology_of(rt.alloc(), &[1, 3, 0, 1, 0, 2, 255, 255])?;
    let text = plan(rt.alloc(), &topology)?;
    assert_eq!(rt;
        text.as_slice(),
        b"places 3\ndistances\n0: 0 - 65535\n1: - 0 -\n2: 65535 - 0\ntables\n0: - - 2\n1: - - -\n2: 0 - -\ndetours\n0-2: apart unused apart\n".as_slice()
    );
    Ok(())
}
