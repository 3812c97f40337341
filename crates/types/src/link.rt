ghost use Rattle.std.specs.Prelude.{◌≡◌, Some};
ghost use Rattle.theory.specs.Network.{joins};
ghost use Rattle.types.specs.Link.{check_ends, link_name, lower_first};

use crate::fault::ReadFault;
use crate::node::NodeId;
use std::fmt;
use std::marker::Model;

/// A link by its two ends, in either order. `==` compares them as they stand, `is_same` either way round.
#[derive(Clone, Copy, PartialEq, Eq, Debug)]
pub struct LinkId {
    pub a: NodeId,
    pub b: NodeId,
}

impl Model for LinkId {
    ghost use Rattle.theory.specs.Network.{LinkId as Ends};

    ghost Value = { Ends };

    ghost view = { λ link. record { a = link.a; b = link.b } };

    ghost inverse = { λ link. record { a = link.a; b = link.b } };
}

impl LinkId {
    /// Returns whether it is the link between `x` and `y`.
    pub fn joins(self, x: NodeId, y: NodeId) -> bool
        ensures { result ≡ joins self x y }
    {
        (x == self.a && y == self.b) || (x == self.b && y == self.a)
    }

    /// Returns whether it is the same link, whichever end comes first.
    pub fn is_same(self, other: LinkId) -> bool
        ensures { result ≡ joins self other.a other.b }
    {
        self.joins(other.a, other.b)
    }

    /// Fails where its ends are not two of the nodes below `nodes`.
    pub fn check(self, nodes: u8) -> Result<(), ReadFault>
        ensures { result ≡ check_ends nodes self }
    {
        self.a.check(nodes)?;
        self.b.check(nodes)?;
        if self.a == self.b {
            return Err(ReadFault::SelfLink);
        }
        Ok(())
    }

    /// Returns the same link, with its lower node first.
    pub fn lower_first(self) -> LinkId
        ensures { result ≡ lower_first self }
    {
        if self.a <= self.b {
            return self;
        }
        LinkId {
            a: self.b,
            b: self.a,
        }
    }
}

impl fmt::Display for LinkId {
    ghost output = { λ link. Some (link_name link) };

    fn fmt<W: fmt::Write>(&self, f: &mut fmt::Formatter<W>) -> fmt::Result {
        write!(f, "{}-{}", self.a, self.b)
    }
}

/// A link of a network: the lower node, the higher one, and the cost, the same both ways.
#[derive(Clone, Copy, PartialEq, Eq, Debug)]
pub struct Link {
    pub a: NodeId,
    pub b: NodeId,
    pub cost: u16,
}

/// Its two ends.
impl From<Link> for LinkId {
    ghost use Rattle.std.specs.Prelude.{◌≡◌};
    ghost use Rattle.types.specs.Link.{ends_of};

    ghost from_gives = { λ link r. r ≡ ends_of link };

    fn from(link: Link) -> LinkId {
        LinkId {
            a: link.a,
            b: link.b,
        }
    }
}
