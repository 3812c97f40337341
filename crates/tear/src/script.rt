// The lines of a script: what each asks for, or why it is bad.
use crate::bad_line::BadLine;
use cli::number;
use network::SendRequest;
use std::alloc::Global;
use std::str::from_utf8;
use types::{LinkId, NodeId, Segment, SenderSegments};

/// What a line asks for. Messages and packets are meant by their indices; scripts count them from 1.
#[derive(Clone, Copy)]
pub enum Command {
    Nothing,
    Close(LinkId),
    Words,
    Deliver(usize),
    DeliverAll,
    Again(usize),
    Over(NodeId, NodeId),
    OverAll,
    Send(SendRequest),
    Put(SendRequest),
    Hop(usize),
    Run(usize),
    State,
}

/// What a line asks for, in a network with so many nodes. What follows # is a comment.
pub fn parse_line(heap: Global, line: &[u8], nodes: u8) -> Result<Command, BadLine> {
    let code = line.split(|byte| *byte == b'#').next().unwrap_or(line);
    let text = from_utf8(code).map_err(|_| BadLine::NotText)?;
    let words: Vec<&str> = text.split_ascii_whitespace().collect(heap)?;
    parse_words(words.as_slice(), nodes)
}

fn parse_words(words: &[&str], nodes: u8) -> Result<Command, BadLine> {
    match words {
        [] => Ok(Command::Nothing),
        ["close", a, b] => {
            let link = LinkId {
                a: node(a, nodes)?,
                b: node(b, nodes)?,
            };
            Ok(Command::Close(link.lower_first()))
        }
        ["words"] => Ok(Command::Words),
        ["deliver", "all"] => Ok(Command::DeliverAll),
        ["deliver", message] => Ok(Command::Deliver(index(message)?)),
        ["again", message] => Ok(Command::Again(index(message)?)),
        ["over", "all"] => Ok(Command::OverAll),
        ["over", router, destination] => Ok(Command::Over(
            node(router, nodes)?,
            node(destination, nodes)?,
        )),
        ["send", rest @ ..] => Ok(Command::Send(parse_request(rest, nodes)?)),
        ["put", rest @ ..] => Ok(Command::Put(parse_request(rest, nodes)?)),
        ["hop", packet] => Ok(Command::Hop(index(packet)?)),
        ["run", packet] => Ok(Command::Run(index(packet)?)),
        ["state"] => Ok(Command::State),
        _ => Err(BadLine::Unknown),
    }
}

fn parse_request(words: &[&str], nodes: u8) -> Result<SendRequest, BadLine> {
    let [start, destination, rest @ ..] = words else {
        return Err(BadLine::NoEnds);
    };
    let mut segments = SenderSegments::new();
    for word in rest {
        segments.push(segment(word, nodes)?)?;
    }
    Ok(SendRequest {
        start: any_node(start, nodes)?,
        destination: node(destination, nodes)?,
        segments,
    })
}

// A segment is a node, or a link from a node to another.
fn segment(word: &str, nodes: u8) -> Result<Segment, BadLine> {
    let Some((from, to)) = word.split_once('-') else {
        return Ok(Segment::Node(node(word, nodes)?));
    };
    let (from, to) = (node(from, nodes)?, node(to, nodes)?);
    if from == to {
        return Err(BadLine::SelfSegment);
    }
    Ok(Segment::Link { from, to })
}

fn node(word: &str, nodes: u8) -> Result<NodeId, BadLine> {
    let node = any_node(word, nodes)?;
    if node.is_below(nodes) {
        Ok(node)
    } else {
        Err(BadLine::Node(nodes))
    }
}

// A node that may not be one of the network's.
fn any_node(word: &str, nodes: u8) -> Result<NodeId, BadLine> {
    number(word)
        .map(|number| NodeId(number))
        .ok_or(BadLine::Node(nodes))
}

// The index of what has this number.
fn index(word: &str) -> Result<usize, BadLine> {
    number::<usize>(word)
        .and_then(|n| n.checked_sub(1))
        .ok_or(BadLine::Number)
}
