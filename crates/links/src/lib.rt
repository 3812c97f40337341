//! The topology of a network, by its lawful list of links.
#![tactic(auto)]

pub mod topology;

pub use topology::Topology;
