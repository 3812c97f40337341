ghost use Rattle.std.specs.Prelude.{◌≡◌};
ghost use Rattle.endpoint.specs.FrameError.{frame_number, links_error, router_error};
ghost use Rattle.endpoint.specs.declared.error.FrameError.TheVariants.{Memory, Read};

use router::RouterError;
use std::alloc::AllocError;
use thiserror::Error;
use types::{DropReason, ReadFault, Refusal};
use wire::{LinksError, ReadError};

/// Why nothing comes of a frame: its bytes are refused, the router refuses it, its packet is dropped, or memory is wanting.
#[derive(Clone, Copy, PartialEq, Eq, Debug, Error)]
pub enum FrameError {
    #[error("{0}")]
    Read(ReadFault),
    #[error("{0}")]
    Refused(Refusal),
    #[error("{0}")]
    Dropped(DropReason),
    #[error("out of memory")]
    Memory(AllocError),
}

impl FrameError {
    /// The number by which users know it, from 1 to 9; none where memory is wanting.
    pub fn number(self) -> Option<u8>
        ensures { result ≡ frame_number self }
    {
        match self {
            FrameError::Read(fault) => Some(fault.number()),
            FrameError::Refused(refusal) => Some(refusal.number()),
            FrameError::Dropped(reason) => Some(reason.number()),
            FrameError::Memory(_) => None,
        }
    }
}

impl From<ReadError> for FrameError {
    ghost from_gives = { λ error r. r ≡ Read error.fault };

    fn from(error: ReadError) -> FrameError {
        FrameError::Read(error.fault)
    }
}

impl From<LinksError> for FrameError {
    ghost from_gives = { λ error r. r ≡ links_error error };

    fn from(error: LinksError) -> FrameError {
        match error {
            LinksError::Refused(error) => FrameError::Read(error.fault),
            LinksError::Memory(error) => FrameError::Memory(error),
        }
    }
}

impl From<RouterError> for FrameError {
    ghost from_gives = { λ error r. r ≡ router_error error };

    fn from(error: RouterError) -> FrameError {
        match error {
            RouterError::Refused(refusal) => FrameError::Refused(refusal),
            RouterError::Memory(error) => FrameError::Memory(error),
        }
    }
}

impl From<AllocError> for FrameError {
    ghost from_gives = { λ error r. r ≡ Memory error };

    fn from(error: AllocError) -> FrameError {
        FrameError::Memory(error)
    }
}
