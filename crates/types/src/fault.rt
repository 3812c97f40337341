ghost use Rattle.std.specs.Prelude.{◌≡◌};
ghost use Rattle.types.specs.Faults.{drop_number, read_number, refusal_number};

use thiserror::Error;

/// Why bytes are refused.
#[derive(Clone, Copy, PartialEq, Eq, Debug, Error)]
pub enum ReadFault {
    #[error("unknown kind of message")]
    UnknownKind,
    #[error("the bytes end too early")]
    Truncated,
    #[error("bytes left over at the end")]
    TrailingBytes,
    #[error("the number of nodes is not from 1 to 64")]
    NodeCount,
    #[error("a node that is not below the number of nodes")]
    NodeOutOfRange,
    #[error("a link of cost 0")]
    ZeroCost,
    #[error("more than 3 segments of a sender")]
    TooManySenderSegments,
    #[error("a link from a node to itself")]
    SelfLink,
    #[error("the higher node of a link comes first")]
    HigherFirst,
    #[error("links not in rising order")]
    NotRising,
    #[error("more than 5 segments")]
    TooManySegments,
}

impl ReadFault {
    /// Returns the number by which users know it: 1, 2, 3 or 7.
    pub fn number(self) -> u8
        ensures { result ≡ read_number self }
    {
        match self {
            ReadFault::UnknownKind | ReadFault::Truncated | ReadFault::TrailingBytes => 1,
            ReadFault::NodeCount
            | ReadFault::NodeOutOfRange
            | ReadFault::ZeroCost
            | ReadFault::TooManySenderSegments => 2,
            ReadFault::SelfLink | ReadFault::HigherFirst | ReadFault::NotRising => 3,
            ReadFault::TooManySegments => 7,
        }
    }
}

/// Why a router refuses a message, a list or a frame. Nothing changes then.
#[derive(Clone, Copy, PartialEq, Eq, Debug, Error)]
pub enum Refusal {
    #[error("a link that is not in the list")]
    NoSuchLink,
    #[error("a frame from a node that is no neighbour")]
    NotNeighbour,
    #[error("a second link fails while routers switch")]
    SecondFailure,
    #[error("nobody waits for this Switched message")]
    NotPending,
}

impl Refusal {
    /// Returns the number by which users know it: 4, 5 or 6.
    pub fn number(self) -> u8
        ensures { result ≡ refusal_number self }
    {
        match self {
            Refusal::NoSuchLink | Refusal::NotNeighbour => 4,
            Refusal::SecondFailure => 5,
            Refusal::NotPending => 6,
        }
    }
}

/// Why a packet is dropped.
#[derive(Clone, Copy, PartialEq, Eq, Debug, Error)]
pub enum DropReason {
    #[error("no next hop for the aim")]
    NoNextHop,
    #[error("no repair for the failed link")]
    NoRepair,
    #[error("more than 5 segments")]
    TooManySegments,
    #[error("no hops left")]
    NoHopsLeft,
    #[error("a link segment that does not begin here")]
    SegmentElsewhere,
    #[error("a link segment over a link that is down")]
    SegmentLinkDown,
}

impl DropReason {
    /// Returns the number by which users know it: 7, 8 or 9.
    pub fn number(self) -> u8
        ensures { result ≡ drop_number self }
    {
        match self {
            DropReason::NoNextHop | DropReason::NoRepair | DropReason::TooManySegments => 7,
            DropReason::NoHopsLeft => 8,
            DropReason::SegmentElsewhere | DropReason::SegmentLinkDown => 9,
        }
    }
}

#[cfg(test)]
mod tests {
    use super::*;
    use std::test::Fail;

    #[test]
    fn texts(rt: HostRuntime) -> Result<(), Fail> {
        let heap = rt.alloc();
        let read = format!(in heap; "{}", ReadFault::NodeCount)?;
        assert_eq!(rt; read.as_str(), "the number of nodes is not from 1 to 64");
        let refusal = format!(in heap; "{}", Refusal::NotPending)?;
        assert_eq!(rt; refusal.as_str(), "nobody waits for this Switched message");
        let dropped = format!(in heap; "{}", DropReason::NoHopsLeft)?;
        assert_eq!(rt; dropped.as_str(), "no hops left");
        Ok(())
    }
}
