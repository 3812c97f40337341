// Packets sent over whole networks in which the link 0-1 fails.
use crate::networks::{FAILED, PAIR, RING, TRIANGLE, segments_of, topology_of};
use network::{FlightState, Network, SendRequest};
use std::alloc::{AllocError, Global};
use std::test::Fail;
use types::{DropReason, NodeId, Segment};

// What has happened before the packet is sent. Named, as a table can't hold closures: each has a type of its own.
enum Before {
    Nothing,
    EndsKnow,
    Node3Switched,
    AllSwitched,
}

struct Case {
    name: &'static str,
    bytes: &'static [u8],
    before: Before,
    from: u8,
    to: u8,
    segments: [Option<Segment>; 3],
    path: &'static [u8],
    cost: u32,
    state: FlightState,
}

const CASES: [Case; 11] = [
    Case {
        name: "a whole ring",
        bytes: RING,
        before: Before::Nothing,
        from: 3,
        to: 1,
        segments: [None; 3],
        path: &[3, 0, 1],
        cost: 2,
        state: FlightState::Delivered,
    },
    Case {
        name: "to itself",
        bytes: RING,
        before: Before::EndsKnow,
        from: 2,
        to: 2,
        segments: [None; 3],
        path: &[2],
        cost: 0,
        state: FlightState::Delivered,
    },
    Case {
        name: "F: only the ends know",
        bytes: RING,
        before: Before::EndsKnow,
        from: 3,
        to: 1,
        segments: [None; 3],
        path: &[3, 0, 3, 2, 1],
        cost: 4,
        state: FlightState::Delivered,
    },
    Case {
        name: "G: node 3 has switched",
        bytes: RING,
        before: Before::Node3Switched,
        from: 3,
        to: 1,
        segments: [None; 3],
        path: &[3, 2, 1],
        cost: 2,
        state: FlightState::Delivered,
    },
    Case {
        name: "G: node 0 has not",
        bytes: RING,
        before: Before::Node3Switched,
        from: 0,
        to: 1,
        segments: [None; 3],
        path: &[0, 3, 2, 1],
        cost: 3,
        state: FlightState::Delivered,
    },
    Case {
        name: "all have switched",
        bytes: RING,
        before: Before::AllSwitched,
        from: 0,
        to: 1,
        segments: [None; 3],
        path: &[0, 3, 2, 1],
        cost: 3,
        state: FlightState::Delivered,
    },
    Case {
        name: "a repair for each of two aims",
        bytes: RING,
        before: Before::EndsKnow,
        from: 0,
        to: 0,
        segments: [Some(Segment::Node(NodeId(1))), None, None],
        path: &[0, 3, 2, 1, 2, 3, 0],
        cost: 6,
        state: FlightState::Delivered,
    },
    Case {
        name: "over a link of the sender's",
        bytes: RING,
        before: Before::EndsKnow,
        from: 0,
        to: 1,
        segments: [
            Some(Segment::Link {
                from: NodeId(0),
                to: NodeId(3),
            }),
            None,
            None,
        ],
        path: &[0, 3, 0, 3, 2, 1],
        cost: 5,
        state: FlightState::Delivered,
    },
    Case {
        name: "over the failed link",
        bytes: RING,
        before: Before::EndsKnow,
        from: 0,
        to: 1,
        segments: [
            Some(Segment::Link {
                from: NodeId(0),
                to: NodeId(1),
            }),
            None,
            None,
        ],
        path: &[0],
        cost: 0,
        state: FlightState::Dropped(DropReason::SegmentLinkDown),
    },
    Case {
        name: "a triangle",
        bytes: TRIANGLE,
        before: Before::EndsKnow,
        from: 0,
        to: 1,
        segments: [None; 3],
        path: &[0, 2, 1],
        cost: 2,
        state: FlightState::Delivered,
    },
    Case {
        name: "no post-convergence path",
        bytes: PAIR,
        before: Before::EndsKnow,
        from: 0,
        to: 1,
        segments: [None; 3],
        path: &[0],
        cost: 0,
        state: FlightState::Dropped(DropReason::NoRepair),
    },
];

fn network_of(heap: Global, case: &Case) -> Result<Network, Fail> {
    let topology = topology_of(heap, case.bytes)?;
    let mut network = Network::new(heap, &topology)?;
    match case.before {
        Before::Nothing => {}
        Before::EndsKnow => network.fail(FAILED)?,
        Before::Node3Switched => {
            network.fail(FAILED)?;
            let Some(answer) = network.deliver(0) else {
                return Err(Fail::new("the message is not under way"));
            };
            answer?;
            network.switch(NodeId(3), NodeId(1))?;
        }
        Before::AllSwitched => {
            network.fail(FAILED)?;
            for _ in 0..4 {
                deliver_and_switch(&mut network)?;
            }
        }
    }
    Ok(network)
}

// All messages arrive that were sent so far, and all routers switch that may then.
fn deliver_and_switch(network: &mut Network) -> Result<(), Fail> {
    for k in 0..network.messages().len() {
        if let Some(answer) = network.deliver(k) {
            answer?;
        }
    }
    for u in 0..4 {
        for d in 0..4 {
            network.switch(NodeId(u), NodeId(d))?;
        }
    }
    Ok(())
}

// The nodes by their numbers.
fn numbers_of(heap: Global, nodes: &[NodeId]) -> Result<Vec<u8>, AllocError> {
    let mut numbers = Vec::new(heap);
    for node in nodes {
        numbers.push(node.number())?;
    }
    Ok(numbers)
}

#[test]
fn sent(rt: HostRuntime) -> Result<(), Fail> {
    for case in CASES.iter() {
        let mut network = network_of(rt.alloc(), case)?;
        let start = NodeId(case.from);
        if !start.is_below(network.nodes()) {
            return Err(Fail::new("there is no such node"));
        }
        let number = network.send(SendRequest {
            start,
            destination: NodeId(case.to),
            segments: segments_of(&case.segments)?,
        })?;
        let Some(flight) = network.flight(number) else {
            return Err(Fail::new("the packet is not there"));
        };
        assert_eq!(rt;
            (flight.spent(), flight.state()),
            (case.cost, case.state),
            "{}",
            case.name
        );
        let path = numbers_of(rt.alloc(), flight.path())?;
        assert_eq!(rt; path.as_slice(), case.path, "{}", case.name);
    }
    Ok(())
}
