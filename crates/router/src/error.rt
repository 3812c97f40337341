ghost use Rattle.std.specs.Prelude.{◌≡◌};
ghost use Rattle.router.specs.RouterError.{IsMemory};
ghost use Rattle.router.specs.declared.error.RouterError.TheVariants.{Refused};

use std::alloc::{AllocError, AllocFailed};
use thiserror::Error;
use types::Refusal;

/// Why a router does not do what it is told: it refuses, or memory is wanting. Nothing changes then.
#[derive(Clone, Copy, PartialEq, Eq, Debug, Error)]
pub enum RouterError {
    #[error("{0}")]
    Refused(Refusal),
    #[error("out of memory")]
    Memory(AllocError),
}

impl From<Refusal> for RouterError {
    ghost from_gives = { λ refusal r. r ≡ Refused refusal };

    fn from(refusal: Refusal) -> RouterError {
        RouterError::Refused(refusal)
    }
}

impl From<AllocError> for RouterError {
    ghost from_gives = { λ _ r. IsMemory r };

    fn from(error: AllocError) -> RouterError {
        RouterError::Memory(error)
    }
}

impl<T: Drop> From<AllocFailed<T>> for RouterError {
    ghost from_gives = { λ _ r. IsMemory r };

    fn from(error: AllocFailed<T>) -> RouterError {
        RouterError::Memory(AllocError::from(error))
    }
}
