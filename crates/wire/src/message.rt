//! The bytes of a message: 3 and a link's two nodes, the lower one first; or 4, who has switched, the destination, and
//! the failed link's two nodes.
ghost use Rattle.std.specs.Prelude.{◌≡◌, ℕ, ◌++◌, Err, IfOk, IsErr, MatchOption, OnErr, OnOk, Ok};
ghost use Rattle.wire.specs.Cursor.{unless};
ghost use Rattle.wire.specs.Messages.{MessageLawful, ordered, message_bytes, message_at, link_fault, message_fault, message_in};

use crate::cursor::Cursor;
use crate::error::ReadError;
use crate::kind::{LINK_DOWN, SWITCHED};
use std::alloc::AllocError;
use types::{LinkId, Message, NodeId, ReadFault, Switched};

/// Reads a message in a network of so many nodes. No two lists of bytes read as the same one.
pub fn parse_message(bytes: &[u8], nodes: u8) -> Result<Message, ReadError>
    ensures value { result ≡ message_in nodes bytes.now }
    ensures lawful { IfOk result (λ m. MessageLawful nodes m) }
    ensures spelled { IfOk result (λ m. message_bytes m ≡ bytes.now) }
{
    let cursor = Cursor::new(bytes);
    let Some((message, rest)) = next_message(bytes) else {
        return Err(cursor.refuse(no_message(bytes)));
    };
    cursor.piece(check_message(nodes, &message))?;
    cursor.after(rest).end()?;
    Ok(message)
}

/// The message in front, and the bytes after it.
fn next_message(bytes: &[u8]) -> Option<(Message, &[u8])>
    ensures { let front = message_at bytes.now in
        MatchOption result (IsErr front) (λ p. front ≡ Ok (p.0, p.1.now)) }
{
    match bytes {
        [LINK_DOWN, a, b, rest @ ..] => Some((Message::LinkDown(link_of(*a, *b)), rest)),
        [SWITCHED, from, destination, a, b, rest @ ..] => {
            let switched = Switched {
                from: NodeId(*from),
                destination: NodeId(*destination),
                link: link_of(*a, *b),
            };
            Some((Message::Switched(switched), rest))
        }
        _ => None,
    }
}

fn link_of(a: u8, b: u8) -> LinkId
    ensures { result ≡ record { a = a; b = b } }
{
    LinkId {
        a: NodeId(a),
        b: NodeId(b),
    }
}

/// Why there is none.
fn no_message(bytes: &[u8]) -> ReadFault
    ensures { IsErr (message_at bytes.now) → message_at bytes.now ≡ Err result }
{
    match bytes {
        [] | [LINK_DOWN, ..] | [SWITCHED, ..] => ReadFault::Truncated,
        _ => ReadFault::UnknownKind,
    }
}

/// All its nodes are below the number of nodes, and the lower node of its link comes first.
fn check_message(nodes: u8, message: &Message) -> Result<(), ReadFault>
    ensures { result ≡ unless (message_fault nodes message.now) tt }
{
    match message {
        Message::LinkDown(link) => check_link(nodes, *link),
        Message::Switched(switched) => {
            switched.from.check(nodes)?;
            switched.destination.check(nodes)?;
            check_link(nodes, switched.link)
        }
    }
}

fn check_link(nodes: u8, link: LinkId) -> Result<(), ReadFault>
    ensures { result ≡ unless (link_fault nodes link) tt }
{
    link.check(nodes)?;
    if link.b < link.a {
        return Err(ReadFault::HigherFirst);
    }
    Ok(())
}

/// Puts a message behind what is written already, its link's lower node first. It reads back as the same message, with
/// the link in that order.
pub fn emit_message(message: &Message, out: &mut Vec<u8>) -> Result<(), AllocError>
    ensures ok { OnOk result (out.new.items ≡ out.old.items ++ message_bytes message.now) }
    ensures err { OnErr result (out.new.items ≡ out.old.items) }

    // A lawful message reads back as it is, and one that is lawful once its link is turned reads back turned.
    ensures back { (n : ℕ) → MessageLawful n message.now →
        message_in n (message_bytes message.now) ≡ Ok message.now }
    ensures turned { let turned = ordered message.now in
        (n : ℕ) → MessageLawful n turned → message_in n (message_bytes message.now) ≡ Ok turned }
{
    match message {
        Message::LinkDown(link) => {
            let link = link.lower_first();
            out.extend_from_slice(&[LINK_DOWN, link.a.number(), link.b.number()])
        }
        Message::Switched(switched) => {
            let link = switched.link.lower_first();
            out.extend_from_slice(&[
                SWITCHED,
                switched.from.number(),
                switched.destination.number(),
                link.a.number(),
                link.b.number(),
            ])
        }
    }
}
