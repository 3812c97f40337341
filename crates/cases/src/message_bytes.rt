// Messages in bytes, in a network of four nodes, and the kinds of frames.
use crate::refused::Refused;
use std::test::Fail;
use types::{LinkId, Message, NodeId, ReadFault, Switched};
use wire::{Kind, ReadError, emit_message, kind_of, parse_message};

const NODES: u8 = 4;

// Messages that are refused, and by what.
const BAD_MESSAGES: [Refused; 12] = [
    Refused {
        name: "empty",
        bytes: &[],
        fault: ReadFault::Truncated,
        at: 0,
    },
    Refused {
        name: "a packet",
        bytes: &[2, 0, 1],
        fault: ReadFault::UnknownKind,
        at: 0,
    },
    Refused {
        name: "cut LinkDown",
        bytes: &[3, 0],
        fault: ReadFault::Truncated,
        at: 0,
    },
    Refused {
        name: "cut Switched, though its first node is bad",
        bytes: &[4, 9, 1, 0],
        fault: ReadFault::Truncated,
        at: 0,
    },
    Refused {
        name: "link not below n",
        bytes: &[3, 0, 4],
        fault: ReadFault::NodeOutOfRange,
        at: 0,
    },
    Refused {
        name: "from not below n",
        bytes: &[4, 4, 0, 0, 1],
        fault: ReadFault::NodeOutOfRange,
        at: 0,
    },
    Refused {
        name: "destination not below n",
        bytes: &[4, 0, 4, 0, 1],
        fault: ReadFault::NodeOutOfRange,
        at: 0,
    },
    Refused {
        name: "not below n before the higher node first",
        bytes: &[3, 4, 1],
        fault: ReadFault::NodeOutOfRange,
        at: 0,
    },
    Refused {
        name: "higher node first",
        bytes: &[4, 0, 1, 3, 2],
        fault: ReadFault::HigherFirst,
        at: 0,
    },
    Refused {
        name: "link from a node to itself",
        bytes: &[3, 2, 2],
        fault: ReadFault::SelfLink,
        at: 0,
    },
    Refused {
        name: "bytes left over behind LinkDown",
        bytes: &[3, 0, 1, 0],
        fault: ReadFault::TrailingBytes,
        at: 3,
    },
    Refused {
        name: "bytes left over behind Switched",
        bytes: &[4, 0, 1, 2, 3, 9, 9],
        fault: ReadFault::TrailingBytes,
        at: 5,
    },
];

#[test]
fn refused_messages(rt: HostRuntime) -> Result<(), Fail> {
    for case in BAD_MESSAGES.iter() {
        let read = parse_message(case.bytes, NODES);
        assert_eq!(rt; read.err(), case.error(), "{}", case.name);
    }
    Ok(())
}

const UNTURNED: LinkId = LinkId {
    a: NodeId(3),
    b: NodeId(0),
};

// What is written of a message: the lower node of its link first.
const WRITTEN: [(Message, &[u8]); 2] = [
    (Message::LinkDown(UNTURNED), &[3, 0, 3]),
    (
        Message::Switched(Switched {
            from: NodeId(2),
            destination: NodeId(1),
            link: UNTURNED,
        }),
        &[4, 2, 1, 0, 3],
    ),
];

// Written, read, and written again.
#[test]
fn messages_there_and_back(rt: HostRuntime) -> Result<(), Fail> {
    for (message, bytes) in WRITTEN.iter() {
        let mut out = Vec::new(rt.alloc());
        emit_message(message, &mut out)?;
        assert_eq!(rt; out.as_slice(), *bytes);
        let mut again = Vec::new(rt.alloc());
        emit_message(&parse_message(bytes, NODES)?, &mut again)?;
        assert_eq!(rt; again.as_slice(), *bytes);
    }
    Ok(())
}

// The refusal of a frame at its first byte.
fn refused(fault: ReadFault) -> Result<Kind, ReadError> {
    Err(ReadError { fault, at: 0 })
}

// The kind of a frame by its first byte.
#[test]
fn kinds(rt: HostRuntime) {
    assert_eq!(rt; kind_of(&[]), refused(ReadFault::Truncated));
    assert_eq!(rt; kind_of(&[0]), refused(ReadFault::UnknownKind));
    assert_eq!(rt; kind_of(&[1]), Ok(Kind::Links));
    assert_eq!(rt; kind_of(&[2, 9]), Ok(Kind::Packet));
    assert_eq!(rt; kind_of(&[3]), Ok(Kind::LinkDown));
    assert_eq!(rt; kind_of(&[4]), Ok(Kind::Switched));
    assert_eq!(rt; kind_of(&[5]), refused(ReadFault::UnknownKind));
}
