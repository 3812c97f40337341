ghost use Rattle.std.specs.Prelude.{◌≡◌, ◌≢◌, ℕ, Err, IfErr, IfOk, IsOk, List, Ok, OnOk, true};
ghost use Rattle.endpoint.specs.FrameError.{OnMemory, UnlessMemory};
ghost use Rattle.endpoint.specs.Frames.{by_decision, may_come, origin_of, router_at, serve, serve_list, serve_packet, start, IsSettled, Serves, WantsMemory};
ghost use Rattle.protocol.specs.Packet.{forward};
ghost use Rattle.router.specs.Model.{model};
ghost use Rattle.types.specs.Packet.{packet_of};
ghost use Rattle.wire.specs.Kinds.{kind_in};

use crate::error::FrameError;
use crate::message::serve_message;
use router::{Outcome, Router};
use std::alloc::Global;
use types::{NodeId, Packet, ReadFault, Refusal};
use wire::{Frame, Kind, Origin, emit_packet_to, kind_of, parse_links, parse_packet};

/// A frame comes to a router. What the router hands on and says is put behind what is written already. Where memory is
/// wanting nothing is written, but the router may have heard a message, and switched for the first destinations.
pub fn serve(
    heap: Global,
    router: &mut Router,
    frame: Frame,
    out: &mut Vec<u8>,
) -> Result<(), FrameError>
    ensures value { Serves (serve (model router.old) frame.entry.from frame.entry.message.now)
        (model router.old) (model router.new) out.old.items out.new.items result }

    // A stranger's frame, one of an unknown kind, a packet or message that isn't read, and a dropped packet never want memory.
    ensures memory { OnMemory result ((may_come (model router.old) frame.entry.from ≡ true) ×
        WantsMemory (kind_in frame.entry.message.now)
        (model router.old) frame.entry.from frame.entry.message.now (model router.new)) }

    // After a list or a message it may switch for no destination.
    ensures settled { kind_in frame.entry.message.now ≢ Ok Kind.Packet →
        OnOk result (IsSettled (model router.new)) }
{
    let Frame { from, message } = frame;
    if !may_come(router, from) {
        return Err(FrameError::Refused(Refusal::NotNeighbour));
    }
    match kind_of(message)? {
        Kind::Links => serve_list(heap, router, message),
        Kind::Packet => serve_packet(router, from, message, out),
        Kind::LinkDown | Kind::Switched => serve_message(heap, router, from, message, out),
    }
}

/// May a frame come from this node? The router's own number stands for its own sender, and for what it notices itself.
fn may_come(router: &Router, from: NodeId) -> bool
    ensures { result ≡ may_come (model router.now) from }
{
    let me = router.node();
    from == me || router.link_cost(me, from).is_some()
}

/// The router at a node, by the first frame: a list of links, which only its own number may send.
pub fn start(heap: Global, me: NodeId, frame: Frame) -> Result<Router, FrameError>
    ensures ok { IfOk result (λ r.
        start me frame.entry.from frame.entry.message.now ≡ Ok (model r)) }
    ensures refused { IfErr result (λ e. UnlessMemory e
        (start me frame.entry.from frame.entry.message.now ≡ Err e)) }
{
    let Frame { from, message } = frame;
    if from != me {
        return Err(FrameError::Refused(Refusal::NotNeighbour));
    }
    router_at(heap, me, message)
}

fn router_at(heap: Global, me: NodeId, bytes: &[u8]) -> Result<Router, FrameError>
    ensures ok { IfOk result (λ r. router_at me bytes.now ≡ Ok (model r)) }
    ensures refused { IfErr result (λ e. UnlessMemory e (router_at me bytes.now ≡ Err e)) }
{
    let topology = parse_links(heap, bytes)?;
    if !me.is_below(topology.nodes()) {
        return Err(FrameError::Read(ReadFault::NodeOutOfRange));
    }
    Ok(Router::new(heap, &topology, me))
}

/// A later list: the router begins anew, and nothing is written.
fn serve_list(heap: Global, router: &mut Router, bytes: &[u8]) -> Result<(), FrameError>
    ensures value { (out : List ℕ) → Serves (serve_list (model router.old) bytes.now)
        (model router.old) (model router.new) out out result }
    ensures memory { OnMemory result (model router.new ≡ model router.old) }
    ensures settled { OnOk result (IsSettled (model router.new)) }
{
    let next = router_at(heap, router.node(), bytes)?;
    if router.failure().is_some() {
        return Err(FrameError::Refused(Refusal::SecondFailure));
    }
    *router = next;
    Ok(())
}

fn serve_packet(
    router: &Router,
    from: NodeId,
    bytes: &[u8],
    out: &mut Vec<u8>,
) -> Result<(), FrameError>
    ensures value { Serves (serve_packet (model router.now) from bytes.now)
        (model router.now) (model router.now) out.old.items out.new.items result }
    ensures memory { OnMemory result (IsOk (serve_packet (model router.now) from bytes.now)) }
{
    match parse_packet(bytes, router.nodes(), origin_of(router, from)) {
        Ok(packet) => hand_on(router, packet, out),
        Err(error) => Err(FrameError::from(error)),
    }
}

/// A packet has come to its destination, or goes on to a neighbour, or is dropped.
fn hand_on(router: &Router, packet: Packet, out: &mut Vec<u8>) -> Result<(), FrameError>
    ensures value { let p = packet_of packet in
        let served = by_decision (model router.now) p (forward (model router.now) p) in
        Serves served (model router.now) (model router.now) out.old.items out.new.items result }
    ensures memory { let p = packet_of packet in
        OnMemory result (IsOk (by_decision (model router.now) p (forward (model router.now) p))) }
{
    let bare = Packet::without_segments(packet.destination(), packet.hop_limit());
    match router.forward(packet) {
        Outcome::Delivered => Ok(emit_packet_to(router.node(), &bare, out)?),
        Outcome::Sent { to, packet } => Ok(emit_packet_to(to, &packet, out)?),
        Outcome::Dropped(reason) => Err(FrameError::Dropped(reason)),
    }
}

/// Whose packet it is.
fn origin_of(router: &Router, from: NodeId) -> Origin
    ensures { result ≡ origin_of (model router.now) from }
{
    if from == router.node() {
        Origin::Sender
    } else {
        Origin::Neighbour
    }
}
