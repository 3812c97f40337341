ghost use Rattle.std.specs.Prelude.{◌≡◌};
ghost use Rattle.wire.specs.Kinds.{kind_in};

use crate::cursor::Cursor;
use crate::error::ReadError;
use types::ReadFault;

// The first byte of each kind.
pub(crate) const LINKS: u8 = 1;

pub(crate) const PACKET: u8 = 2;

pub(crate) const LINK_DOWN: u8 = 3;

pub(crate) const SWITCHED: u8 = 4;

/// What a frame holds.
#[derive(Clone, Copy, PartialEq, Eq, Debug)]
pub enum Kind {
    /// for `parse_links`
    Links,
    /// for `parse_packet`
    Packet,
    /// for `parse_message`
    LinkDown,
    /// for `parse_message`
    Switched,
}

/// Classifies bytes by the first one.
pub fn kind_of(bytes: &[u8]) -> Result<Kind, ReadError>
    ensures { result ≡ kind_in bytes.now }
{
    let cursor = Cursor::new(bytes);
    let [kind, ..] = bytes else {
        return Err(cursor.refuse(ReadFault::Truncated));
    };
    match *kind {
        LINKS => Ok(Kind::Links),
        PACKET => Ok(Kind::Packet),
        LINK_DOWN => Ok(Kind::LinkDown),
        SWITCHED => Ok(Kind::Switched),
        _ => Err(cursor.refuse(ReadFault::UnknownKind)),
    }
}
