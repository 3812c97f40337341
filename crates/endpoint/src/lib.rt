//! One router as bytes: what comes of each frame, and what is written for it.
#![tactic(auto)]

pub mod error;
pub mod frame;
mod message;

pub use error::FrameError;
pub use frame::{serve, start};

#[cfg(test)]
mod tests;
