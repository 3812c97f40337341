ghost use Rattle.std.specs.Prelude.{◌<◌, ◌≤◌};

use crate::fault::ReadFault;
use crate::node::NodeId;
use crate::segment::Segment;

/// Up to N segments: the first `count` of an array, since forwarding has no heap.
#[derive(Clone, Copy, Debug)]
pub struct Segments<const N: usize> {
    all: [Segment; N],
    count: u8,
    ghost few: { (count ≤ N) × (N < 256) },
}

/// The segments that a sender puts on a packet: up to three.
pub type SenderSegments = Segments<3>;

impl<const N: usize> Segments<N> {
    ghost use Rattle.std.specs.Prelude.{◌≡◌, ◌<◌, ◌≤◌, [], length, drop};
    ghost use Rattle.std.specs.Option.{option_map};
    ghost use Rattle.types.specs.Segments.{behind, first_of, in_front, segments_of};

    /// Returns no segments.
    pub(crate) fn none() -> Segments<N>
        requires { N < 256 }
        ensures { segments_of result ≡ [] }
    {
        Segments {
            all: [Segment::Node(NodeId(0)); N],
            count: 0,
        }
    }

    /// Returns how many there are: up to N.
    pub fn count(self) -> u8
        ensures value { result ≡ length (segments_of self.entry) }
        ensures bound { result ≤ N }
    {
        self.count
    }

    /// Returns them in order, the active segment first.
    pub fn as_slice(&self) -> &[Segment]
        ensures { result.now ≡ segments_of self.now }
    {
        &self.all[..self.count as usize]
    }

    /// Returns the active segment, if there is one.
    pub fn first(&self) -> Option<Segment>
        ensures { result ≡ first_of (segments_of self.now) }
    {
        self.as_slice().first().copied()
    }

    /// Returns them with one more behind; `None` where there are N.
    pub(crate) fn with_last(mut self, segment: Segment) -> Option<Segments<N>>
        ensures { option_map segments_of result ≡ behind N (segments_of self.entry) segment }
    {
        let last = self.count as usize;
        if last == N {
            return None;
        }
        self.all[last] = segment;
        self.count += 1;
        Some(self)
    }

    /// Returns them with one more in front; `None` where there are N.
    pub(crate) fn with_first(mut self, segment: Segment) -> Option<Segments<N>>
        ensures { option_map segments_of result ≡ in_front N (segments_of self.entry) segment }
    {
        if self.count as usize == N {
            return None;
        }
        self.all.copy_within(..N - 1, 1);
        self.all[0] = segment;
        self.count += 1;
        Some(self)
    }

    /// Returns them with the first taken off, if there is one.
    pub(crate) fn without_first(mut self) -> Segments<N>
        ensures { segments_of result ≡ drop 1 (segments_of self.entry) }
    {
        if self.count == 0 {
            return self;
        }
        self.all.copy_within(1.., 0);
        self.count -= 1;
        self
    }
}

impl SenderSegments {
    ghost use Rattle.std.specs.Prelude.{◌≡◌, []};
    ghost use Rattle.types.specs.Segments.{segments_of, Pushed};

    /// Returns no segments.
    pub fn new() -> SenderSegments
        ensures { segments_of result ≡ [] }
    {
        Segments::none()
    }

    /// Adds one behind the others. A fourth is refused, and nothing changes.
    pub fn push(&mut self, segment: Segment) -> Result<(), ReadFault>
        ensures { Pushed (segments_of self.old) segment (segments_of self.new) result }
    {
        *self = self
            .with_last(segment)
            .ok_or(ReadFault::TooManySenderSegments)?;
        Ok(())
    }
}

/// A sender's segments in a packet's.
impl From<Segments<3>> for Segments<5> {
    ghost use Rattle.std.specs.Prelude.{◌≡◌};
    ghost use Rattle.types.specs.Segments.{segments_of};

    ghost from_gives = { λ s r. segments_of r ≡ segments_of s };

    fn from(sender: Segments<3>) -> Segments<5> {
        let mut all = [Segment::Node(NodeId(0)); 5];
        all[..3].copy_from_slice(&sender.all);
        Segments {
            all,
            count: sender.count,
        }
    }
}

/// What lies in the array behind the count is not compared.
impl<const N: usize> PartialEq for Segments<N> {
    ghost use Rattle.std.specs.Prelude.{take};
    ghost use Rattle.std.specs.Cmp.{on_per};
    ghost use Rattle.std.specs.Cmp.Lexicographic.{pointwise, lists_per};
    ghost use Rattle.std.specs.Ordering.{on};
    ghost use Rattle.types.specs.contracts.segment.SegmentPartialEq.TheImpl as segment;
    ghost use Rattle.types.specs.contracts.segment.SegmentPartialEq.TheImpl.Laws as segment_partial_eq;

    ghost eq = { on (λ s. take s.count s.all) (pointwise (segment.ghosts).eq) };

    ghost laws = { on_per (λ s. take s.count s.all) (lists_per segment_partial_eq.laws-law) };

    fn eq(&self, other: &Segments<N>) -> bool {
        self.all[..self.count as usize] == other.all[..other.count as usize]
    }
}

impl<const N: usize> Eq for Segments<N> {
    ghost use Rattle.std.specs.Prelude.{take};
    ghost use Rattle.std.specs.Cmp.{on_equiv};
    ghost use Rattle.std.specs.Cmp.Lexicographic.{lists_equiv};
    ghost use Rattle.types.specs.contracts.segment.SegmentEq.TheImpl.Laws as segment_eq;

    ghost laws = { on_equiv (λ s. take s.count s.all) (lists_equiv segment_eq.laws-law) };
}
