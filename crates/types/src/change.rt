use crate::link::LinkId;

/// A change of a network.
#[derive(Clone, Copy, PartialEq, Eq, Debug)]
pub enum Change {
    /// Nothing changes.
    Nothing,
    /// A link fails. Nothing changes where there is no such link.
    LinkFails(LinkId),
}
