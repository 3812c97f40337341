//! The bytes of lists of links, packets, messages and frames: a parse and an emit each.
#![tactic(auto)]

mod cursor;
pub mod error;
pub mod frame;
pub mod kind;
pub mod list;
pub mod message;
pub mod packet;
mod segment;

pub use error::{LinksError, ReadError};
pub use frame::{Frame, Frames, emit_message_to, emit_packet_to, next_frame};
pub use kind::{Kind, kind_of};
pub use list::{emit_links, parse_links};
pub use message::{emit_message, parse_message};
pub use packet::{Origin, emit_packet, parse_packet};
