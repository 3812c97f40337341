use std::marker::Model;
use types::NodeId;

/// First to p by next hops, then over the link from p to q, then on by next hops.
#[derive(Clone, Copy, PartialEq, Eq, Debug)]
pub struct Repair {
    pub p: NodeId,
    pub q: NodeId,
}

impl Model for Repair {
    ghost use Rattle.theory.specs.Repair.{Repair as Hops};

    ghost Value = { Hops };

    ghost view = { λ repair. record { p = repair.p; q = repair.q } };

    ghost inverse = { λ repair. record { p = repair.p; q = repair.q } };
}

/// What a node has precomputed for one of its links and one destination.
#[derive(Clone, Copy, PartialEq, Eq, Debug)]
pub enum Entry {
    /// It doesn't send over the link to the destination.
    Unused,
    /// There is no post-convergence path.
    Apart,
    Via(Repair),
}
