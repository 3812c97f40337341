use crate::{FrameError, serve, start};
use router::Router;
use std::alloc::{AllocError, Global};
use types::{DropReason, NodeId, ReadFault, Refusal};
use wire::Frame;

/// A ring of 0, 1, 2 and 3, each link of cost 1.
const RING: [u8; 20] = [1, 4, 0, 4, 0, 1, 0, 1, 0, 3, 0, 1, 1, 2, 0, 1, 2, 3, 0, 1];

fn frame(from: u8, message: &[u8]) -> Frame {
    Frame {
        from: NodeId(from),
        message,
    }
}

/// What is written for a frame.
fn written(
    heap: Global,
    router: &mut Router,
    from: u8,
    message: &[u8],
) -> Result<Vec<u8>, FrameError> {
    let mut out = Vec::new(heap);
    serve(heap, router, frame(from, message), &mut out)?;
    Ok(out)
}

#[test]
fn frames(rt: HostRuntime) -> Result<(), FrameError> {
    let heap = rt.alloc();
    let mut router = start(heap, NodeId(3), frame(3, &RING))?;
    let frames: [(u8, &[u8], &[u8]); 4] = [
        // a packet to 1 over 0, and one that is delivered with no segments left
        (2, &[2, 1, 255, 254, 0], &[0, 2, 1, 255, 253, 0]),
        (0, &[2, 3, 0, 7, 1, 0, 3], &[3, 2, 3, 0, 7, 0]),
        // the link 0-1 fails: both neighbours are told, and 0 that 3 has switched for 1
        (0, &[3, 0, 1], &[0, 3, 0, 1, 2, 3, 0, 1, 0, 4, 3, 1, 0, 1]),
        (3, &RING, &[]),
    ];
    for (from, message, wanted) in frames.iter() {
        let out = written(heap, &mut router, *from, message)?;
        assert_eq!(rt; out.as_slice(), *wanted, "of a frame from {from}");
    }
    Ok(())
}

#[test]
fn texts(rt: HostRuntime) -> Result<(), AllocError> {
    let texts = [
        (
            FrameError::Read(ReadFault::Truncated),
            "the bytes end too early",
        ),
        (
            FrameError::Refused(Refusal::NotNeighbour),
            "a frame from a node that is no neighbour",
        ),
        (FrameError::Dropped(DropReason::NoHopsLeft), "no hops left"),
        (FrameError::Memory(AllocError), "out of memory"),
    ];
    for (error, wanted) in texts.iter() {
        let text = format!(in rt.alloc(); "{error}")?;
        assert_eq!(rt; text.as_str(), *wanted);
    }
    Ok(())
}
