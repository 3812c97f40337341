//! A whole network: its routers, the messages between them, and the packets that are played over it.
#![tactic(auto)]

pub mod arrival;
pub mod flight;
pub mod network;
pub mod send_request;

pub use flight::{Flight, FlightState};
pub use network::Network;
pub use send_request::SendRequest;
