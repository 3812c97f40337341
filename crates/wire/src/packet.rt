//! The bytes of a packet: 2, its destination, its hop limit (2, the high byte first), the number of its segments, and
//! the segments.
ghost use Rattle.std.specs.Prelude.{◌≡◌, ℕ, ◌+◌, ◌≤◌, ◌++◌, IfOk, List, None, OnErr, OnOk, Ok, length};
ghost use Rattle.types.specs.Packet.{packet_of, with_segments};
ghost use Rattle.wire.specs.Cursor.{read_as, unless};
ghost use Rattle.wire.specs.Packets.{PacketLawful, packet_bytes, segments_in, header_fault, packet_in};
ghost use Rattle.wire.specs.declared.packet.Origin.{Origin as Source};

use crate::cursor::Cursor;
use crate::error::ReadError;
use crate::kind::PACKET;
use crate::segment::{check_segment, emit_segments, next_segment, no_segment};
use std::alloc::AllocError;
use types::{NodeId, Packet, ReadFault};

/// Whom a packet comes from: a router's own sender, or a neighbour.
#[derive(Clone, Copy, PartialEq, Eq, Debug)]
pub enum Origin {
    Sender,
    Neighbour,
}

/// Reads a packet in a network of so many nodes. No two lists of bytes read as the same one.
pub fn parse_packet(bytes: &[u8], nodes: u8, origin: Origin) -> Result<Packet, ReadError>
    ensures value { read_as packet_of result ≡ packet_in origin nodes bytes.now }
    ensures lawful { IfOk result (λ p. PacketLawful origin nodes (packet_of p)) }
    ensures spelled { IfOk result (λ p. packet_bytes (packet_of p) ≡ bytes.now) }
{
    let cursor = Cursor::new(bytes);
    let [kind, destination, high, low, count, rest @ ..] = bytes else {
        return Err(cursor.refuse(ReadFault::Truncated));
    };
    let destination = NodeId(*destination);
    cursor.piece(check_header(origin, nodes, *kind, destination, *count))?;
    let hop_limit = u16::from_be_bytes([*high, *low]);
    let packet = Packet::without_segments(destination, hop_limit);
    parse_segments(cursor.after(rest), nodes, *count, packet)
}

fn check_header(
    origin: Origin,
    nodes: u8,
    kind: u8,
    destination: NodeId,
    count: u8,
) -> Result<(), ReadFault>
    ensures { result ≡ unless (header_fault origin nodes kind destination count) tt }
{
    if kind != PACKET {
        return Err(ReadFault::UnknownKind);
    }
    destination.check(nodes)?;
    match origin {
        Origin::Sender if count > 3 => Err(ReadFault::TooManySenderSegments),
        Origin::Neighbour if count > 5 => Err(ReadFault::TooManySegments),
        _ => Ok(()),
    }
}

/// So many segments, put behind those of the packet, and then the end. Those that are not yet read are handed on as the
/// rest of the bytes.
fn parse_segments(cursor: Cursor, nodes: u8, count: u8, packet: Packet) -> Result<Packet, ReadError>
    requires { length (packet_of packet).segments + count ≤ 5 }
    ensures { let p = packet_of packet in
        let read = segments_in nodes count None cursor.entry.size cursor.entry.bytes.now in
        read_as packet_of result ≡ read_as (λ ss. with_segments p (p.segments ++ ss)) read }
{
    let mut longer = packet;
    let mut rest = cursor;
    for _ in 0..count {
        let Some((segment, more)) = next_segment(rest.bytes) else {
            return Err(rest.refuse(no_segment(rest.bytes)));
        };
        rest.piece(check_segment(nodes, &segment))?;
        let Some(next) = longer.with_last(segment) else {
            return Err(rest.refuse(ReadFault::TooManySegments));
        };
        longer = next;
        rest = rest.after(more);
    }
    rest.end()?;
    Ok(longer)
}

/// Puts a packet behind what is written already. It reads back as the same one.
pub fn emit_packet(packet: &Packet, out: &mut Vec<u8>) -> Result<(), AllocError>
    ensures ok { let bytes = packet_bytes (packet_of packet.now) in
        OnOk result (out.new.items ≡ out.old.items ++ bytes) }
    ensures err { OnErr result (out.new.items ≡ out.old.items) }
    ensures back { let p = packet_of packet.now in
        (origin : Source) (n : ℕ) → PacketLawful origin n p →
        packet_in origin n (packet_bytes p) ≡ Ok p }
{
    let before = out.len();
    let emitted = emit_parts(packet, out);
    if emitted.is_err() {
        out.truncate(before);
    }
    emitted
}

/// Puts the header and the segments behind what is written already. On an `Err` some of the bytes may stand there.
fn emit_parts(packet: &Packet, out: &mut Vec<u8>) -> Result<(), AllocError>
    ensures ok { let bytes = packet_bytes (packet_of packet.now) in
        OnOk result (out.new.items ≡ out.old.items ++ bytes) }
    ensures err { OnErr result ((some : List ℕ) × (out.new.items ≡ out.old.items ++ some)) }
{
    let [high, low] = packet.hop_limit().to_be_bytes();
    let destination = packet.destination().number();
    out.extend_from_slice(&[PACKET, destination, high, low, packet.count()])?;
    emit_segments(packet.segments(), out)
}
