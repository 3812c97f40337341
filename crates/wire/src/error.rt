ghost use Rattle.std.specs.Prelude.{◌≡◌, alloc_error};
ghost use Rattle.wire.specs.declared.error.LinksError.TheVariants.{Refused, Memory};

use std::alloc::{AllocError, AllocFailed};
use std::error::Error;
use std::fmt;
use types::ReadFault;

/// Why bytes are refused, and the byte at which the faulty piece begins.
#[derive(Clone, Copy, PartialEq, Eq, Debug)]
pub struct ReadError {
    pub fault: ReadFault,
    pub at: usize,
}

/// One line: the rule that is broken by its number, where, and how.
impl fmt::Display for ReadError {
    fn fmt<W: fmt::Write>(&self, f: &mut fmt::Formatter<W>) -> fmt::Result {
        let ReadError { fault, at } = *self;
        write!(f, "fault {}: at byte {at}: {fault}", fault.number())
    }
}

impl Error for ReadError {}

/// Why a list of links is not read: its bytes are refused, or memory runs out.
#[derive(Clone, Copy, PartialEq, Eq, Debug)]
pub enum LinksError {
    Refused(ReadError),
    Memory(AllocError),
}

impl fmt::Display for LinksError {
    fn fmt<W: fmt::Write>(&self, f: &mut fmt::Formatter<W>) -> fmt::Result {
        match self {
            LinksError::Refused(error) => write!(f, "{error}"),
            LinksError::Memory(_) => write!(f, "out of memory"),
        }
    }
}

impl Error for LinksError {}

impl From<ReadError> for LinksError {
    ghost from_gives = { λ refusal r. r ≡ Refused refusal };

    fn from(refusal: ReadError) -> LinksError {
        LinksError::Refused(refusal)
    }
}

impl From<AllocError> for LinksError {
    ghost from_gives = { λ error r. r ≡ Memory error };

    fn from(error: AllocError) -> LinksError {
        LinksError::Memory(error)
    }
}

impl<T: Drop> From<AllocFailed<T>> for LinksError {
    ghost from_gives = { λ _ r. r ≡ Memory alloc_error };

    fn from(_failed: AllocFailed<T>) -> LinksError {
        LinksError::Memory(AllocError)
    }
}
