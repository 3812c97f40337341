// Repairs in small networks in which the link 0-1 fails.
use crate::networks::{PAIR, RING, TRIANGLE, topology_of};
use repairs::{Entry, Repair, precompute_link, precompute_row};
use routes::Routes;
use std::alloc::Global;
use std::test::Fail;
use types::{MAX_NODES, NodeId};

// What the end s of the link 0-1 has for the destination d.
struct Case {
    name: &'static str,
    bytes: &'static [u8],
    s: u8,
    d: u8,
    entry: Entry,
}

const CASES: [Case; 8] = [
    Case {
        name: "A: ring, to 1",
        bytes: RING,
        s: 0,
        d: 1,
        entry: Entry::Via(Repair {
            p: NodeId(3),
            q: NodeId(2),
        }),
    },
    Case {
        name: "B: ring, to 2",
        bytes: RING,
        s: 0,
        d: 2,
        entry: Entry::Via(Repair {
            p: NodeId(3),
            q: NodeId(2),
        }),
    },
    Case {
        name: "ring, to 3",
        bytes: RING,
        s: 0,
        d: 3,
        entry: Entry::Unused,
    },
    Case {
        name: "ring, the other end to 0",
        bytes: RING,
        s: 1,
        d: 0,
        entry: Entry::Via(Repair {
            p: NodeId(2),
            q: NodeId(3),
        }),
    },
    Case {
        name: "ring, the other end to 2",
        bytes: RING,
        s: 1,
        d: 2,
        entry: Entry::Unused,
    },
    Case {
        name: "C: triangle, to 1",
        bytes: TRIANGLE,
        s: 0,
        d: 1,
        entry: Entry::Via(Repair {
            p: NodeId(2),
            q: NodeId(1),
        }),
    },
    Case {
        name: "D: two nodes, to 1",
        bytes: PAIR,
        s: 0,
        d: 1,
        entry: Entry::Apart,
    },
    Case {
        name: "two nodes, to itself",
        bytes: PAIR,
        s: 0,
        d: 0,
        entry: Entry::Unused,
    },
];

// What the end s of the link 0-1 has for d.
fn entry_of(heap: Global, case: &Case) -> Result<Option<Entry>, Fail> {
    let routes = Routes::of(&topology_of(heap, case.bytes)?);
    let (s, f) = (NodeId(case.s), NodeId(1 - (case.s & 1)));
    if routes.link_cost(s, f).is_none() {
        return Err(Fail::new("there is no such link"));
    }
    let mut row = [Entry::Unused; MAX_NODES];
    precompute_row(&routes, s, f, &mut row[..routes.nodes() as usize]);
    Ok(row.get(case.d as usize).copied())
}

#[test]
fn repairs(rt: HostRuntime) -> Result<(), Fail> {
    for case in CASES.iter() {
        assert_eq!(rt;
            entry_of(rt.alloc(), case)?,
            Some(case.entry),
            "{}",
            case.name
        );
    }
    Ok(())
}

#[test]
fn one_row_of_a_table(rt: HostRuntime) -> Result<(), Fail> {
    let routes = Routes::of(&topology_of(rt.alloc(), RING)?);
    if routes.link_cost(NodeId(0), NodeId(1)).is_none() {
        return Err(Fail::new("there is no such link"));
    }
    let mut table = [Entry::Apart; MAX_NODES * MAX_NODES];
    precompute_link(&routes, NodeId(0), NodeId(1), &mut table);
    let untouched = table.iter().filter(|entry| **entry == Entry::Apart).count();
    assert_eq!(rt; untouched, 4092, "only the row of the link is written");
    Ok(())
}
