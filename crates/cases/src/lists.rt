// Lists of links in bytes: what is read, what is refused and where, and what is written.
use crate::refused::Refused;
use std::test::Fail;
use types::ReadFault;
use wire::{LinksError, emit_links, parse_links};

// Lists that are refused, and by what.
const REFUSED: [Refused; 16] = [
    Refused {
        name: "empty",
        bytes: &[],
        fault: ReadFault::Truncated,
        at: 0,
    },
    Refused {
        name: "cut header, though n is bad",
        bytes: &[1, 0, 0],
        fault: ReadFault::Truncated,
        at: 0,
    },
    Refused {
        name: "unknown kind before a bad n",
        bytes: &[9, 0, 0, 0],
        fault: ReadFault::UnknownKind,
        at: 0,
    },
    Refused {
        name: "no nodes",
        bytes: &[1, 0, 0, 0],
        fault: ReadFault::NodeCount,
        at: 0,
    },
    Refused {
        name: "65 nodes",
        bytes: &[1, 65, 0, 0],
        fault: ReadFault::NodeCount,
        at: 0,
    },
    Refused {
        name: "cut link",
        bytes: &[1, 2, 0, 1, 0, 1, 0],
        fault: ReadFault::Truncated,
        at: 4,
    },
    Refused {
        name: "no link at all",
        bytes: &[1, 2, 0, 1],
        fault: ReadFault::Truncated,
        at: 4,
    },
    Refused {
        name: "node not below n",
        bytes: &[1, 2, 0, 1, 0, 2, 0, 1],
        fault: ReadFault::NodeOutOfRange,
        at: 4,
    },
    Refused {
        name: "cost 0 before a self link",
        bytes: &[1, 2, 0, 1, 1, 1, 0, 0],
        fault: ReadFault::ZeroCost,
        at: 4,
    },
    Refused {
        name: "self link",
        bytes: &[1, 2, 0, 1, 1, 1, 0, 1],
        fault: ReadFault::SelfLink,
        at: 4,
    },
    Refused {
        name: "higher node first",
        bytes: &[1, 2, 0, 1, 1, 0, 0, 1],
        fault: ReadFault::HigherFirst,
        at: 4,
    },
    Refused {
        name: "a link twice",
        bytes: &[1, 2, 0, 2, 0, 1, 0, 1, 0, 1, 0, 2],
        fault: ReadFault::NotRising,
        at: 8,
    },
    Refused {
        name: "falling lower node",
        bytes: &[1, 3, 0, 2, 1, 2, 0, 1, 0, 1, 0, 1],
        fault: ReadFault::NotRising,
        at: 8,
    },
    Refused {
        name: "falling higher node",
        bytes: &[1, 3, 0, 2, 0, 2, 0, 1, 0, 1, 0, 1],
        fault: ReadFault::NotRising,
        at: 8,
    },
    Refused {
        name: "the first fault wins",
        bytes: &[1, 2, 0, 2, 0, 2, 0, 1, 0, 1],
        fault: ReadFault::NodeOutOfRange,
        at: 4,
    },
    Refused {
        name: "bytes left over",
        bytes: &[1, 2, 0, 1, 0, 1, 0, 1, 7],
        fault: ReadFault::TrailingBytes,
        at: 8,
    },
];

#[test]
fn refusals(rt: HostRuntime) -> Result<(), Fail> {
    for case in REFUSED.iter() {
        let read = parse_links(rt.alloc(), case.bytes);
        assert_eq!(rt;
            read.err(),
            case.error().map(LinksError::Refused),
            "{}",
            case.name
        );
    }
    Ok(())
}

// Lists that are read, and written back byte for byte.
const LAWFUL: [&[u8]; 4] = [
    &[1, 1, 0, 0],
    &[1, 64, 0, 0],
    &[1, 2, 0, 1, 0, 1, 255, 255],
    &[1, 4, 0, 4, 0, 1, 0, 1, 0, 3, 0, 1, 1, 2, 0, 1, 2, 3, 1, 0],
];

#[test]
fn there_and_back(rt: HostRuntime) -> Result<(), Fail> {
    for bytes in LAWFUL.iter() {
        let written = emit_links(rt.alloc(), &parse_links(rt.alloc(), bytes)?)?;
        assert_eq!(rt; written.as_slice(), *bytes);
    }
    Ok(())
}
