ghost use Rattle.std.specs.Prelude.{◌≡◌, ◌≤◌, length};
ghost use Rattle.std.specs.Option.{option_map};
ghost use Rattle.types.specs.Packet.{bare, behind_first, fresh, longer, one_less, packet_of, repaired, stripped};
ghost use Rattle.types.specs.Segments.{first_of, own_in, segments_of};

use crate::node::NodeId;
use crate::segment::Segment;
use crate::segments::{Segments, SenderSegments};

/// A packet: its destination, how many hops it may still go, and up to five segments.
#[derive(Clone, Copy, PartialEq, Eq, Debug)]
pub struct Packet {
    destination: NodeId,
    hop_limit: u16,
    segments: Segments<5>,
}

impl Packet {
    /// Returns a packet as its sender makes it: all hops are left.
    pub fn new(destination: NodeId, segments: SenderSegments) -> Packet
        ensures { packet_of result ≡ fresh destination (segments_of segments) }
    {
        Packet {
            destination,
            hop_limit: u16::MAX,
            segments: Segments::from(segments),
        }
    }

    /// Returns a packet on its way, with no segments.
    pub fn without_segments(destination: NodeId, hop_limit: u16) -> Packet
        ensures { packet_of result ≡ bare destination hop_limit }
    {
        Packet {
            destination,
            hop_limit,
            segments: Segments::none(),
        }
    }

    /// Returns the node that it goes to in the end.
    pub fn destination(&self) -> NodeId
        ensures { result ≡ (packet_of self.now).destination }
    {
        self.destination
    }

    /// Returns how many hops it may still go.
    pub fn hop_limit(&self) -> u16
        ensures { result ≡ (packet_of self.now).hop_limit }
    {
        self.hop_limit
    }

    /// Returns how many segments it has: up to five.
    pub fn count(&self) -> u8
        ensures value { result ≡ length (packet_of self.now).segments }
        ensures bound { result ≤ 5 }
    {
        self.segments.count()
    }

    /// Returns its segments in order, the active one first.
    pub fn segments(&self) -> &[Segment]
        ensures { result.now ≡ (packet_of self.now).segments }
    {
        self.segments.as_slice()
    }

    /// Returns the active segment, if there is one.
    pub fn first(&self) -> Option<Segment>
        ensures { result ≡ first_of (packet_of self.now).segments }
    {
        self.segments.first()
    }

    /// Returns it with the first segment taken off, if there is one.
    pub fn without_first(self) -> Packet
        ensures { packet_of result ≡ behind_first (packet_of self) }
    {
        let segments = self.segments.without_first();
        Packet { segments, ..self }
    }

    /// Returns it with one segment more behind the others; `None` where there are five.
    pub fn with_last(self, segment: Segment) -> Option<Packet>
        ensures { option_map packet_of result ≡ longer (packet_of self) segment }
    {
        let segments = self.segments.with_last(segment)?;
        Some(Packet { segments, ..self })
    }

    /// Returns it with a repair's two segments in front of all others: to `p`, and over the link from `p` to `q`;
    /// `None` where that makes more than five.
    pub fn with_repair(self, p: NodeId, q: NodeId) -> Option<Packet>
        ensures { option_map packet_of result ≡ repaired (packet_of self) p q }
    {
        let to_p = Segment::Node(p);
        let to_q = Segment::Link { from: p, to: q };
        let segments = self.segments.with_first(to_q)?.with_first(to_p)?;
        Some(Packet { segments, ..self })
    }

    /// Returns it with one hop less, as it goes over a link; `None` where no hop is left.
    pub fn one_hop_less(self) -> Option<Packet>
        ensures { option_map packet_of result ≡ one_less (packet_of self) }
    {
        let hop_limit = self.hop_limit.checked_sub(1)?;
        Some(Packet { hop_limit, ..self })
    }

    /// Returns it at the node `u`: while the first segment is `u`, it is taken off.
    pub fn stripped(self, u: NodeId) -> Packet
        ensures { packet_of result ≡ stripped u (packet_of self) }
    {
        if own_first(self.segments(), u) {
            return self.without_first().stripped(u);
        }
        self
    }
}

/// Returns whether the first segment is the node `u`.
fn own_first(segments: &[Segment], u: NodeId) -> bool
    ensures { result ≡ own_in u segments.now }
{
    matches!(segments, [Segment::Node(x), ..] if *x == u)
}
