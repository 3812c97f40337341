//! The bytes of a segment: 0 and a node, or 1 and the two nodes of a link.
ghost use Rattle.std.specs.Prelude.{◌≡◌, ℕ, ◌++◌, Err, IsErr, List, MatchOption, OnErr, OnOk, Ok};
ghost use Rattle.std.specs.List.{flat_map};
ghost use Rattle.wire.specs.Cursor.{unless};
ghost use Rattle.wire.specs.Packets.{segment_at, segment_bytes, segment_fault};

use std::alloc::AllocError;
use types::{LinkId, NodeId, ReadFault, Segment};

// The first byte of each.
const NODE: u8 = 0;

const LINK: u8 = 1;

/// The segment in front, and the bytes after it.
pub(crate) fn next_segment(bytes: &[u8]) -> Option<(Segment, &[u8])>
    ensures { let front = segment_at bytes.now in
        MatchOption result (IsErr front) (λ p. front ≡ Ok (p.0, p.1.now)) }
{
    match bytes {
        [NODE, node, rest @ ..] => Some((Segment::Node(NodeId(*node)), rest)),
        [LINK, from, to, rest @ ..] => {
            let segment = Segment::Link {
                from: NodeId(*from),
                to: NodeId(*to),
            };
            Some((segment, rest))
        }
        _ => None,
    }
}

/// Why there is none.
pub(crate) fn no_segment(bytes: &[u8]) -> ReadFault
    ensures { IsErr (segment_at bytes.now) → segment_at bytes.now ≡ Err result }
{
    match bytes {
        [] | [NODE, ..] | [LINK, ..] => ReadFault::Truncated,
        _ => ReadFault::UnknownKind,
    }
}

/// Its nodes are below the number of nodes, and a link has two.
pub(crate) fn check_segment(nodes: u8, segment: &Segment) -> Result<(), ReadFault>
    ensures { result ≡ unless (segment_fault nodes segment.now) tt }
{
    match segment {
        Segment::Node(node) => node.check(nodes),
        Segment::Link { from, to } => LinkId { a: *from, b: *to }.check(nodes),
    }
}

/// Puts segments behind what is written already. On an `Err` some of them may stand there.
pub(crate) fn emit_segments(segments: &[Segment], out: &mut Vec<u8>) -> Result<(), AllocError>
    ensures ok { let bytes = flat_map segment_bytes segments.now in
        OnOk result (out.new.items ≡ out.old.items ++ bytes) }
    ensures err { OnErr result ((some : List ℕ) × (out.new.items ≡ out.old.items ++ some)) }
{
    for segment in segments {
        emit_segment(segment, out)?;
    }
    Ok(())
}

fn emit_segment(segment: &Segment, out: &mut Vec<u8>) -> Result<(), AllocError>
    ensures ok { OnOk result (out.new.items ≡ out.old.items ++ segment_bytes segment.now) }
    ensures err { OnErr result (out.new.items ≡ out.old.items) }
{
    match segment {
        Segment::Node(node) => out.extend_from_slice(&[NODE, node.number()]),
        Segment::Link { from, to } => out.extend_from_slice(&[LINK, from.number(), to.number()]),
    }
}
