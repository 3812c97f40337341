// The numbers by which users know the faults.
use types::{DropReason, ReadFault, Refusal};

const READ_FAULTS: [(ReadFault, u8); 11] = [
    (ReadFault::UnknownKind, 1),
    (ReadFault::Truncated, 1),
    (ReadFault::TrailingBytes, 1),
    (ReadFault::NodeCount, 2),
    (ReadFault::NodeOutOfRange, 2),
    (ReadFault::ZeroCost, 2),
    (ReadFault::TooManySenderSegments, 2),
    (ReadFault::SelfLink, 3),
    (ReadFault::HigherFirst, 3),
    (ReadFault::NotRising, 3),
    (ReadFault::TooManySegments, 7),
];

const REFUSALS: [(Refusal, u8); 4] = [
    (Refusal::NoSuchLink, 4),
    (Refusal::NotNeighbour, 4),
    (Refusal::SecondFailure, 5),
    (Refusal::NotPending, 6),
];

const DROP_REASONS: [(DropReason, u8); 6] = [
    (DropReason::NoNextHop, 7),
    (DropReason::NoRepair, 7),
    (DropReason::TooManySegments, 7),
    (DropReason::NoHopsLeft, 8),
    (DropReason::SegmentElsewhere, 9),
    (DropReason::SegmentLinkDown, 9),
];

#[test]
fn numbers(rt: HostRuntime) {
    for (fault, number) in READ_FAULTS.iter() {
        assert_eq!(rt; fault.number(), *number, "{fault}");
    }
    for (refusal, number) in REFUSALS.iter() {
        assert_eq!(rt; refusal.number(), *number, "{refusal}");
    }
    for (reason, number) in DROP_REASONS.iter() {
        assert_eq!(rt; reason.number(), *number, "{reason}");
    }
}
