/// What a LinkDown message is to a router that accepts it.
#[derive(Clone, Copy, PartialEq, Eq, Debug)]
pub enum Report {
    /// It did not know of the failure.
    New,
    /// It knows already, or has taken the link out.
    Duplicate,
}
