use crate::printing::Number;
use router::RouterError;
use std::alloc::AllocError;
use std::fmt;
use thiserror::Error;
use types::{LinkId, ReadFault, Refusal};

/// Why a line can't be played. Messages and packets are meant by their numbers.
#[derive(Clone, Copy, Debug, Error)]
pub enum BadLine {
    #[error("not a text")]
    NotText,
    #[error("no such command, or too few or too many words")]
    Unknown,
    #[error("a message or packet that is not a number from 1")]
    Number,
    #[error("a node that is not a number below {0}")]
    Node(u8),
    #[error("a packet without a start or a destination")]
    NoEnds,
    #[error("a segment from a node to itself")]
    SelfSegment,
    #[error("{0}")]
    Segments(#[from] ReadFault),
    #[error("{0}")]
    Link(RefusedLink),
    #[error("word {0} is not under way")]
    Message(Number),
    #[error("packet {0} is not under way")]
    Packet(Number),
    #[error("out of memory")]
    Memory(#[from(alloc)] AllocError),
}

impl BadLine {
    /// Why a link does not fail.
    pub fn of_link(link: LinkId, error: RouterError) -> BadLine {
        match error {
            RouterError::Refused(refusal) => BadLine::Link(RefusedLink {
                link,
                why: Why::Refused(refusal),
            }),
            RouterError::Memory(error) => BadLine::Memory(error),
        }
    }
}

/// A link that can't fail, and why.
#[derive(Clone, Copy, Debug)]
pub struct RefusedLink {
    pub link: LinkId,
    pub why: Why,
}

/// It is no link between two nodes; or its ends refuse it.
#[derive(Clone, Copy, Debug)]
pub enum Why {
    NoLink(ReadFault),
    Refused(Refusal),
}

impl fmt::Display for RefusedLink {
    fn fmt<W: fmt::Write>(&self, f: &mut fmt::Formatter<W>) -> fmt::Result {
        let link = self.link;
        match self.why {
            Why::NoLink(fault) => write!(f, "link {link} refused {}: {fault}", fault.number()),
            Why::Refused(refusal) => write!(
                f,
                "link {link} refused {}: {refusal}",
                refusal.number()
            ),
        }
    }
}
