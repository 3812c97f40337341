//! The repairs of a node's links, precomputed for each destination.
#![tactic(auto)]

pub mod precompute;
pub mod repair;

pub use precompute::{precompute_link, precompute_row};
pub use repair::{Entry, Repair};
