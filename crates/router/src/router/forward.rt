ghost use Rattle.std.specs.Prelude.{◌≡◌, true, Some};
ghost use Rattle.protocol.specs.Packet.{forward, go_over, known_down, over_link};
ghost use Rattle.protocol.specs.Router.{entry};
ghost use Rattle.router.specs.Model.{model};
ghost use Rattle.router.specs.Outcomes.{decision_of};
ghost use Rattle.router.specs.Rounds.{GoesTowards, IsRound, RepairFound};
ghost use Rattle.types.specs.Packet.{packet_of};

use super::Router;
use crate::outcome::Outcome;
use repairs::{Entry, Repair};
use routes::cell;
use std::ops::ControlFlow;
use types::{DropReason, NodeId, Packet, Segment};

impl Router {
    /// What becomes of a packet that is here. Round by round: there is an end, since each repair that is put on leaves less
    /// room for another.
    pub fn forward(&self, packet: Packet) -> Outcome
        ensures { decision_of result ≡ forward (model self.now) (packet_of packet) }
    {
        match self.round(packet) {
            ControlFlow::Break(outcome) => outcome,
            ControlFlow::Continue(packet) => self.forward(packet),
        }
    }

    /// One round: the packet goes on once more where a repair was put on.
    fn round(&self, packet: Packet) -> ControlFlow<Outcome, Packet>
        ensures { IsRound (model self.now) (packet_of packet) result }
    {
        let packet = packet.stripped(self.me);
        match *packet.segments() {
            [Segment::Link { from, to }, ..] => {
                ControlFlow::Break(self.over_link(packet.without_first(), from, to))
            }
            [Segment::Node(aim), ..] => self.towards(packet, aim),
            [] if packet.destination() == self.me => ControlFlow::Break(Outcome::Delivered),
            [] => {
                let aim = packet.destination();
                self.towards(packet, aim)
            }
        }
    }

    /// Over the link of a segment that is taken off. The lowest number that applies is the answer, so hops come first.
    fn over_link(&self, packet: Packet, from: NodeId, to: NodeId) -> Outcome
        ensures { decision_of result ≡ over_link (model self.now) (packet_of packet) from to (packet_of packet).segments }
    {
        let Some(packet) = packet.one_hop_less() else {
            return Outcome::Dropped(DropReason::NoHopsLeft);
        };
        if from != self.me || self.routes.link_cost(from, to).is_none() {
            return Outcome::Dropped(DropReason::SegmentElsewhere);
        }
        if self.knows_down(from, to) {
            return Outcome::Dropped(DropReason::SegmentLinkDown);
        }
        Outcome::Sent { to, packet }
    }

    /// To the next hop for the aim, or by a repair where that lies over the link that is down. The segments that the packet
    /// has, the aim's own too, stay behind those of the repair.
    fn towards(&self, packet: Packet, aim: NodeId) -> ControlFlow<Outcome, Packet>
        ensures { GoesTowards (model self.now) (packet_of packet) aim result }
    {
        let Some(hop) = self.next_hop(aim) else {
            return ControlFlow::Break(Outcome::Dropped(DropReason::NoNextHop));
        };
        if !self.knows_down(self.me, hop) {
            return ControlFlow::Break(over(packet, hop));
        }
        let Some(repair) = self.repair(hop, aim) else {
            return ControlFlow::Break(Outcome::Dropped(DropReason::NoRepair));
        };
        match packet.with_repair(repair.p, repair.q) {
            Some(packet) => ControlFlow::Continue(packet),
            None => ControlFlow::Break(Outcome::Dropped(DropReason::TooManySegments)),
        }
    }

    /// The repair for an aim whose next hop lies over the failed link.
    fn repair(&self, hop: NodeId, aim: NodeId) -> Option<Repair>
        requires hop { Some hop ≡ entry (model self.now) aim }
        requires down { true ≡ known_down (model self.now) (model self.now).me hop }
        ensures { RepairFound (model self.now) aim result }
    {
        match &self.repairs[cell(hop, aim)] {
            Entry::Via(repair) => Some(*repair),
            Entry::Apart | Entry::Unused => None,
        }
    }
}

/// Over a link that is up.
fn over(packet: Packet, to: NodeId) -> Outcome
    ensures { decision_of result ≡ go_over (packet_of packet) to (packet_of packet).segments }
{
    match packet.one_hop_less() {
        Some(packet) => Outcome::Sent { to, packet },
        None => Outcome::Dropped(DropReason::NoHopsLeft),
    }
}
