// Packets in bytes, in a network of four nodes: what is read, what is refused and where, and what is written.
use crate::refused::Refused;
use std::alloc::{AllocError, Global};
use std::test::Fail;
use types::{NodeId, ReadFault, Segment};
use wire::{Origin, ReadError, emit_packet, parse_packet};

const NODES: u8 = 4;

// Packets from a neighbour that are refused, and by what.
const BAD_FROM_NEIGHBOUR: [Refused; 20] = [
    Refused {
        name: "cut after 0 bytes",
        bytes: &[],
        fault: ReadFault::Truncated,
        at: 0,
    },
    Refused {
        name: "cut after 1 bytes",
        bytes: &[2],
        fault: ReadFault::Truncated,
        at: 0,
    },
    Refused {
        name: "cut after 2 bytes",
        bytes: &[2, 3],
        fault: ReadFault::Truncated,
        at: 0,
    },
    Refused {
        name: "cut after 3 bytes",
        bytes: &[2, 3, 1],
        fault: ReadFault::Truncated,
        at: 0,
    },
    Refused {
        name: "cut after 4 bytes",
        bytes: &[2, 3, 1, 0],
        fault: ReadFault::Truncated,
        at: 0,
    },
    Refused {
        name: "cut after 5 bytes",
        bytes: &[2, 3, 1, 0, 2],
        fault: ReadFault::Truncated,
        at: 5,
    },
    Refused {
        name: "cut after 6 bytes",
        bytes: &[2, 3, 1, 0, 2, 0],
        fault: ReadFault::Truncated,
        at: 5,
    },
    Refused {
        name: "cut after 7 bytes",
        bytes: &[2, 3, 1, 0, 2, 0, 1],
        fault: ReadFault::Truncated,
        at: 7,
    },
    Refused {
        name: "cut after 8 bytes",
        bytes: &[2, 3, 1, 0, 2, 0, 1, 1],
        fault: ReadFault::Truncated,
        at: 7,
    },
    Refused {
        name: "cut after 9 bytes",
        bytes: &[2, 3, 1, 0, 2, 0, 1, 1, 0],
        fault: ReadFault::Truncated,
        at: 7,
    },
    Refused {
        name: "another kind",
        bytes: &[3, 0, 0, 1, 0],
        fault: ReadFault::UnknownKind,
        at: 0,
    },
    Refused {
        name: "unknown kind before a bad destination",
        bytes: &[9, 4, 0, 1, 9],
        fault: ReadFault::UnknownKind,
        at: 0,
    },
    Refused {
        name: "destination not below n",
        bytes: &[2, 4, 0, 1, 0],
        fault: ReadFault::NodeOutOfRange,
        at: 0,
    },
    Refused {
        name: "bad destination before too many segments",
        bytes: &[2, 4, 0, 1, 6],
        fault: ReadFault::NodeOutOfRange,
        at: 0,
    },
    Refused {
        name: "six segments from a neighbour, though all are cut",
        bytes: &[2, 1, 0, 1, 6],
        fault: ReadFault::TooManySegments,
        at: 0,
    },
    Refused {
        name: "unknown kind of segment",
        bytes: &[2, 1, 0, 1, 1, 2, 0],
        fault: ReadFault::UnknownKind,
        at: 5,
    },
    Refused {
        name: "node segment not below n",
        bytes: &[2, 1, 0, 1, 1, 0, 4],
        fault: ReadFault::NodeOutOfRange,
        at: 5,
    },
    Refused {
        name: "link segment not below n, and to itself",
        bytes: &[2, 1, 0, 1, 1, 1, 4, 4],
        fault: ReadFault::NodeOutOfRange,
        at: 5,
    },
    Refused {
        name: "link segment to itself",
        bytes: &[2, 1, 0, 1, 2, 0, 3, 1, 2, 2],
        fault: ReadFault::SelfLink,
        at: 7,
    },
    Refused {
        name: "the first fault wins",
        bytes: &[2, 1, 0, 1, 2, 1, 2, 2, 9],
        fault: ReadFault::SelfLink,
        at: 5,
    },
];

// The same from the sender.
const BAD_FROM_SENDER: [Refused; 2] = [
    Refused {
        name: "four segments of a sender's",
        bytes: &[2, 1, 0, 1, 4, 0, 0, 0, 0, 0, 0, 0, 0],
        fault: ReadFault::TooManySenderSegments,
        at: 0,
    },
    Refused {
        name: "bytes left over",
        bytes: &[2, 1, 0, 1, 1, 0, 3, 0],
        fault: ReadFault::TrailingBytes,
        at: 7,
    },
];

fn refusal_of(bytes: &[u8], origin: Origin) -> Option<ReadError> {
    match parse_packet(bytes, NODES, origin) {
        Ok(_) => None,
        Err(error) => Some(error),
    }
}

#[test]
fn refused_packets(rt: HostRuntime) -> Result<(), Fail> {
    for case in BAD_FROM_NEIGHBOUR.iter() {
        let refusal = refusal_of(case.bytes, Origin::Neighbour);
        assert_eq!(rt; refusal, case.error(), "{}", case.name);
    }
    for case in BAD_FROM_SENDER.iter() {
        let refusal = refusal_of(case.bytes, Origin::Sender);
        assert_eq!(rt; refusal, case.error(), "{}", case.name);
    }
    Ok(())
}

// A packet that is read, and its fields.
struct GoodPacket {
    name: &'static str,
    bytes: &'static [u8],
    origin: Origin,
    destination: u8,
    hop_limit: u16,
    segments: [Option<Segment>; 5],
}

impl GoodPacket {
    fn all_segments(&self, heap: Global) -> Result<Vec<Segment>, AllocError> {
        let mut segments = Vec::new(heap);
        for segment in self.segments.iter() {
            if let Some(segment) = segment {
                segments.push(*segment)?;
            }
        }
        Ok(segments)
    }
}

const GOOD_PACKETS: [GoodPacket; 4] = [
    GoodPacket {
        name: "no segments",
        bytes: &[2, 0, 255, 255, 0],
        origin: Origin::Sender,
        destination: 0,
        hop_limit: 65535,
        segments: [None; 5],
    },
    GoodPacket {
        name: "no hops left",
        bytes: &[2, 3, 0, 0, 1, 1, 3, 0],
        origin: Origin::Neighbour,
        destination: 3,
        hop_limit: 0,
        segments: [
            Some(Segment::Link {
                from: NodeId(3),
                to: NodeId(0),
            }),
            None,
            None,
            None,
            None,
        ],
    },
    GoodPacket {
        name: "three segments of a sender's",
        bytes: &[2, 3, 1, 0, 3, 0, 1, 1, 0, 2, 0, 3],
        origin: Origin::Sender,
        destination: 3,
        hop_limit: 256,
        segments: [
            Some(Segment::Node(NodeId(1))),
            Some(Segment::Link {
                from: NodeId(0),
                to: NodeId(2),
            }),
            Some(Segment::Node(NodeId(3))),
            None,
            None,
        ],
    },
    GoodPacket {
        name: "five segments from a neighbour",
        bytes: &[2, 3, 0, 255, 5, 0, 1, 1, 1, 0, 0, 2, 1, 2, 3, 0, 3],
        origin: Origin::Neighbour,
        destination: 3,
        hop_limit: 255,
        segments: [
            Some(Segment::Node(NodeId(1))),
            Some(Segment::Link {
                from: NodeId(1),
                to: NodeId(0),
            }),
            Some(Segment::Node(NodeId(2))),
            Some(Segment::Link {
                from: NodeId(2),
                to: NodeId(3),
            }),
            Some(Segment::Node(NodeId(3))),
        ],
    },
];

// Each is read, and written back byte for byte, behind what is there.
#[test]
fn packets_there_and_back(rt: HostRuntime) -> Result<(), Fail> {
    for case in GOOD_PACKETS.iter() {
        let Ok(packet) = parse_packet(case.bytes, NODES, case.origin) else {
            return Err(Fail::new(case.name));
        };
        let fields = (packet.destination().number(), packet.hop_limit());
        assert_eq!(rt; fields, (case.destination, case.hop_limit), "{}", case.name);
        let segments = case.all_segments(rt.alloc())?;
        assert_eq!(rt; packet.segments(), segments.as_slice(), "{}", case.name);
        let mut out = [7, 7].to_vec(rt.alloc())?;
        let mut expected = out.clone()?;
        expected.extend_from_slice(case.bytes)?;
        emit_packet(&packet, &mut out)?;
        assert_eq!(rt; out.as_slice(), expected.as_slice(), "{}", case.name);
    }
    Ok(())
}
