ghost use Rattle.std.specs.Prelude.{◌≡◌, ◌-◌, length};
ghost use Rattle.wire.specs.Cursor.{placed, ended};

use crate::error::ReadError;
use types::ReadFault;

/// The bytes that are not read yet: the last ones of `size`. Were they more than that, they would begin at byte 0.
#[derive(Clone, Copy)]
pub(crate) struct Cursor<'a> {
    pub(crate) bytes: &'a [u8],
    size: usize,
}

impl<'a> Cursor<'a> {
    /// At the first of some bytes.
    pub(crate) fn new(bytes: &'a [u8]) -> Cursor<'a>
        ensures all { result.bytes.now ≡ bytes.now }
        ensures size { result.size ≡ length bytes.now }
    {
        Cursor {
            bytes,
            size: bytes.len(),
        }
    }

    /// At what is left behind the next piece.
    pub(crate) fn after(self, rest: &'a [u8]) -> Cursor<'a>
        ensures rest { result.bytes.now ≡ rest.now }
        ensures size { result.size ≡ self.entry.size }
    {
        Cursor {
            bytes: rest,
            size: self.size,
        }
    }

    /// A fault of the next piece, at the byte where it begins.
    pub(crate) fn refuse(self, fault: ReadFault) -> ReadError
        ensures { let at = self.entry.size - length self.entry.bytes.now in
            result ≡ record { fault = fault; at = at } }
    {
        let at = self.size.saturating_sub(self.bytes.len());
        ReadError { fault, at }
    }

    /// The next piece, as it was checked: its fault, if it has one.
    pub(crate) fn piece(self, checked: Result<(), ReadFault>) -> Result<(), ReadError>
        ensures { result ≡ placed (self.entry.size - length self.entry.bytes.now) checked }
    {
        if let Err(fault) = checked {
            return Err(self.refuse(fault));
        }
        Ok(())
    }

    /// The end: nothing is left over.
    pub(crate) fn end(self) -> Result<(), ReadError>
        ensures { let bytes = self.entry.bytes.now in
            result ≡ ended (self.entry.size - length bytes) bytes tt }
    {
        if !self.bytes.is_empty() {
            return Err(self.refuse(ReadFault::TrailingBytes));
        }
        Ok(())
    }
}
