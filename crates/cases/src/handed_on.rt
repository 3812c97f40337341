// What becomes of a packet at one router, in a whole network and beside a failed link.
use crate::networks::{FAILED, PAIR, RING, router_of, segments_of};
use router::Outcome;
use std::alloc::Global;
use std::test::Fail;
use types::{DropReason, Message, NodeId, Packet, Segment};

// What becomes of a packet at a router: where it is sent, to which neighbour, and how many segments it then has.
#[derive(Clone, Copy, PartialEq, Eq, Debug)]
enum Fate {
    Delivered,
    Sent { to: NodeId, segments: u8 },
    Dropped(DropReason),
}

impl From<Outcome> for Fate {
    fn from(outcome: Outcome) -> Fate {
        match outcome {
            Outcome::Delivered => Fate::Delivered,
            Outcome::Sent { to, packet } => Fate::Sent {
                to,
                segments: packet.count(),
            },
            Outcome::Dropped(reason) => Fate::Dropped(reason),
        }
    }
}

// A packet at a router that knows the link 0-1 to be down, or does not.
struct Case {
    name: &'static str,
    bytes: &'static [u8],
    at: u8,
    down: bool,
    destination: u8,
    segments: [Option<Segment>; 3],
    fate: Fate,
}

const CASES: [Case; 9] = [
    Case {
        name: "at its destination",
        bytes: RING,
        at: 1,
        down: false,
        destination: 1,
        segments: [None; 3],
        fate: Fate::Delivered,
    },
    Case {
        name: "by the next hop",
        bytes: RING,
        at: 0,
        down: false,
        destination: 2,
        segments: [None; 3],
        fate: Fate::Sent {
            to: NodeId(1),
            segments: 0,
        },
    },
    Case {
        name: "by a repair",
        bytes: RING,
        at: 0,
        down: true,
        destination: 2,
        segments: [None; 3],
        fate: Fate::Sent {
            to: NodeId(3),
            segments: 2,
        },
    },
    Case {
        name: "by a repair, its own segment stays",
        bytes: RING,
        at: 0,
        down: true,
        destination: 3,
        segments: [Some(Segment::Node(NodeId(1))), None, None],
        fate: Fate::Sent {
            to: NodeId(3),
            segments: 3,
        },
    },
    Case {
        name: "own segments are taken off",
        bytes: RING,
        at: 0,
        down: false,
        destination: 2,
        segments: [
            Some(Segment::Node(NodeId(0))),
            Some(Segment::Node(NodeId(0))),
            Some(Segment::Node(NodeId(3))),
        ],
        fate: Fate::Sent {
            to: NodeId(3),
            segments: 1,
        },
    },
    Case {
        name: "over the link of a segment",
        bytes: RING,
        at: 0,
        down: true,
        destination: 1,
        segments: [
            Some(Segment::Link {
                from: NodeId(0),
                to: NodeId(3),
            }),
            None,
            None,
        ],
        fate: Fate::Sent {
            to: NodeId(3),
            segments: 0,
        },
    },
    Case {
        name: "a segment's link that is down",
        bytes: RING,
        at: 0,
        down: true,
        destination: 1,
        segments: [
            Some(Segment::Link {
                from: NodeId(0),
                to: NodeId(1),
            }),
            None,
            None,
        ],
        fate: Fate::Dropped(DropReason::SegmentLinkDown),
    },
    Case {
        name: "no repair",
        bytes: PAIR,
        at: 0,
        down: true,
        destination: 1,
        segments: [None; 3],
        fate: Fate::Dropped(DropReason::NoRepair),
    },
    Case {
        name: "no such node",
        bytes: PAIR,
        at: 0,
        down: false,
        destination: 64,
        segments: [None; 3],
        fate: Fate::Dropped(DropReason::NoNextHop),
    },
];

fn fate_of(heap: Global, case: &Case) -> Result<Fate, Fail> {
    let mut router = router_of(heap, case.bytes, NodeId(case.at))?;
    if case.down {
        router.hear(
            NodeId(case.at),
            Message::LinkDown(FAILED),
            &mut Vec::new(heap),
        )?;
    }
    let packet = Packet::new(NodeId(case.destination), segments_of(&case.segments)?);
    Ok(Fate::from(router.forward(packet)))
}

#[test]
fn forwarded(rt: HostRuntime) -> Result<(), Fail> {
    for case in CASES.iter() {
        assert_eq!(rt; fate_of(rt.alloc(), case)?, case.fate, "{}", case.name);
    }
    Ok(())
}
