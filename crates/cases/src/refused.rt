// Bytes that a reader refuses.
use types::ReadFault;
use wire::ReadError;

// By which fault, and at which byte.
pub(crate) struct Refused {
    pub(crate) name: &'static str,
    pub(crate) bytes: &'static [u8],
    pub(crate) fault: ReadFault,
    pub(crate) at: usize,
}

impl Refused {
    // What the reader is to answer.
    pub(crate) fn error(&self) -> Option<ReadError> {
        Some(ReadError {
            fault: self.fault,
            at: self.at,
        })
    }
}
