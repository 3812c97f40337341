//! One router: it forwards packets, hears of failures, and switches to its new next hops in order.
#![tactic(auto)]

pub mod error;
pub mod outcome;
pub mod report;
pub mod router;
mod tables;
pub mod transition;

pub use error::RouterError;
pub use outcome::Outcome;
pub use report::Report;
pub use router::Router;
