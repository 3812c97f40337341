ghost use Rattle.std.specs.Prelude.{◌≡◌, ◌+◌, ◌<◌, ◌∷◌, ◌++◌, IfNone, IfSome, OnErr, OnOk, length};
ghost use Rattle.types.specs.Packet.{packet_of};
ghost use Rattle.wire.specs.Frames.{InFront, size_in};
ghost use Rattle.wire.specs.Messages.{message_bytes};
ghost use Rattle.wire.specs.Packets.{packet_bytes};

use crate::message::emit_message;
use crate::packet::emit_packet;
use std::alloc::AllocError;
use types::{Message, NodeId, Packet};

/// What comes to a router: the bytes of a message, and the node that it comes from.
#[derive(Clone, Copy)]
pub struct Frame<'a> {
    pub from: NodeId,
    pub message: &'a [u8],
}

/// The frame in front: the node that it comes from (1 byte), the length of its message (2), and the message; and the bytes
/// after it. None where it is not whole.
pub fn next_frame(bytes: &[u8]) -> Option<(Frame, &[u8])>
    ensures none { IfNone result (length bytes.now < 3 + size_in bytes.now) }
    ensures some { IfSome result (λ p. InFront bytes.now p.0.from p.0.message.now p.1.now) }
{
    let [from, high, low, rest @ ..] = bytes else {
        return None;
    };
    let size = u16::from_be_bytes([*high, *low]) as usize;
    let (message, rest) = rest.split_at_checked(size)?;
    let from = NodeId(*from);
    Some((Frame { from, message }, rest))
}

/// The whole frames in front of bytes, one after another; and the bytes after those that were taken.
#[derive(Drop)]
pub struct Frames<'a> {
    pub rest: &'a [u8],
}

impl<'a> Iterator for Frames<'a> {
    ghost use Rattle.std.specs.Prelude.{length};
    ghost use Rattle.std.specs.Iterator.{at_most};
    ghost use Rattle.wire.specs.Frames.{TakesFrame};

    type Item = Frame<'a>;

    ghost next_gives = { TakesFrame };

    ghost remaining = { λ frames. at_most (length frames.rest.now) };

    fn next(&mut self) -> Option<Frame<'a>> {
        let Some((frame, rest)) = next_frame(self.rest) else {
            return None;
        };
        self.rest = rest;
        Some(frame)
    }
}

/// Puts a packet behind what is written already, after the neighbour that it goes to.
pub fn emit_packet_to(to: NodeId, packet: &Packet, out: &mut Vec<u8>) -> Result<(), AllocError>
    ensures ok { let bytes = packet_bytes (packet_of packet.now) in
        OnOk result (out.new.items ≡ out.old.items ++ to ∷ bytes) }
    ensures err { OnErr result (out.new.items ≡ out.old.items) }
{
    out.push(to.number())?;
    let emitted = emit_packet(packet, out);
    if emitted.is_err() {
        out.pop();
    }
    emitted
}

/// Puts a message behind what is written already, after the neighbour that it goes to.
pub fn emit_message_to(to: NodeId, message: &Message, out: &mut Vec<u8>) -> Result<(), AllocError>
    ensures ok { OnOk result (out.new.items ≡ out.old.items ++ to ∷ message_bytes message.now) }
    ensures err { OnErr result (out.new.items ≡ out.old.items) }
{
    out.push(to.number())?;
    let emitted = emit_message(message, out);
    if emitted.is_err() {
        out.pop();
    }
    emitted
}
