//! The bytes of a list of links: 1, the number of nodes, the number of links (2), and for each link the lower node,
//! the higher node and the cost (2), in rising order; the high byte comes first.
ghost use Rattle.std.specs.Prelude.{◌≡◌, Err, IfErr, IfOk, IsErrOf, MatchOption, MatchResult, None, Ok};
ghost use Rattle.std.specs.Option.{option_copied};
ghost use Rattle.wire.specs.Cursor.{unless};
ghost use Rattle.wire.specs.Lists.{IfRefused, header_fault, link_at, link_bytes, link_fault, links_in, list_bytes, list_in, listing_of};

use crate::cursor::Cursor;
use crate::error::LinksError;
use crate::kind::LINKS;
use links::Topology;
use std::alloc::{AllocError, Global};
use types::{Link, NodeId, ReadFault};

/// Reads a list of links. No two lists of bytes read as the same one.
pub fn parse_links(heap: Global, bytes: &[u8]) -> Result<Topology, LinksError>
    ensures ok { IfOk result (λ t. list_in bytes.now ≡ Ok (listing_of t)) }
    ensures refused { IfErr result (λ e. IfRefused e (λ r. list_in bytes.now ≡ Err r)) }
    ensures spelled { IfOk result (λ t. list_bytes (listing_of t) ≡ bytes.now) }
{
    let cursor = Cursor::new(bytes);
    let [kind, nodes, high, low, rest @ ..] = bytes else {
        return Err(LinksError::Refused(cursor.refuse(ReadFault::Truncated)));
    };
    cursor.piece(check_header(*kind, *nodes))?;
    let count = u16::from_be_bytes([*high, *low]);
    let links = parse_rest(heap, cursor.after(rest), *nodes, count)?;
    Ok(Topology::new(*nodes, links))
}

fn check_header(kind: u8, nodes: u8) -> Result<(), ReadFault>
    ensures { result ≡ unless (header_fault kind nodes) tt }
{
    if kind != LINKS {
        Err(ReadFault::UnknownKind)
    } else if !(1..=64).contains(&nodes) {
        Err(ReadFault::NodeCount)
    } else {
        Ok(())
    }
}

/// So many links, and then the end. Those that are not yet read are handed on as the rest of the bytes.
fn parse_rest(heap: Global, cursor: Cursor, nodes: u8, count: u16) -> Result<Vec<Link>, LinksError>
    ensures { let read = links_in nodes count None cursor.entry.size cursor.entry.bytes.now in
        MatchResult result (λ v. read ≡ Ok v.items) (λ e. IfRefused e (λ r. read ≡ Err r)) }
{
    let mut links = Vec::new(heap);
    let mut rest = cursor;
    for _ in 0..count {
        let Some((link, more)) = next_link(rest.bytes) else {
            return Err(LinksError::Refused(rest.refuse(ReadFault::Truncated)));
        };
        rest.piece(check_link(nodes, links.last(), &link))?;
        links.push(link)?;
        rest = rest.after(more);
    }
    rest.end()?;
    Ok(links)
}

/// The link in front, and the bytes after it.
fn next_link(bytes: &[u8]) -> Option<(Link, &[u8])>
    ensures { let front = link_at bytes.now in
        MatchOption result (IsErrOf front ReadFault.Truncated) (λ p. front ≡ Ok (p.0, p.1.now)) }
{
    let [a, b, high, low, rest @ ..] = bytes else {
        return None;
    };
    let link = Link {
        a: NodeId(*a),
        b: NodeId(*b),
        cost: u16::from_be_bytes([*high, *low]),
    };
    Some((link, rest))
}

/// A link may follow the last one, if there is one yet, or is refused.
fn check_link(nodes: u8, last: Option<&Link>, link: &Link) -> Result<(), ReadFault>
    ensures { result ≡ unless (link_fault nodes (option_copied last.entry) link.now) tt }
{
    link.a.check(nodes)?;
    link.b.check(nodes)?;
    if link.cost == 0 {
        Err(ReadFault::ZeroCost)
    } else if link.a == link.b {
        Err(ReadFault::SelfLink)
    } else if link.b < link.a {
        Err(ReadFault::HigherFirst)
    } else if last.is_some_and(|p| (p.a, p.b) >= (link.a, link.b)) {
        Err(ReadFault::NotRising)
    } else {
        Ok(())
    }
}

/// The bytes of a list of links, which read back as the same one.
pub fn emit_links(heap: Global, topology: &Topology) -> Result<Vec<u8>, AllocError>
    ensures value { IfOk result (λ v. v.items ≡ list_bytes (listing_of topology.now)) }
    ensures back { IfOk result (λ v. list_in v.items ≡ Ok (listing_of topology.now)) }
{
    let nodes = topology.nodes();
    let links = topology.links();
    let [high, low] = (links.len() as u16).to_be_bytes();
    let mut out = Vec::new(heap);
    out.extend_from_slice(&[LINKS, nodes, high, low])?;
    for link in links {
        out.extend_from_slice(&link_bytes(link))?;
    }
    Ok(out)
}

/// The four bytes of a link.
fn link_bytes(link: &Link) -> [u8; 4]
    ensures { result ≡ link_bytes link.now }
{
    let [high, low] = link.cost.to_be_bytes();
    [link.a.number(), link.b.number(), high, low]
}
