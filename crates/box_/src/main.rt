//! One router: frames on standard input, and what it hands on and says on standard output.
#![tactic(auto)]

ghost use Rattle.std.specs.Prelude.{◌<◌, IfOk, codes};
ghost use Rattle.cli.specs.CommandLine.{Requires};

use clap::{Arg, ArgAction, Command};
use cli::{Ending, Program, bad_value, finish, number, parse, read_some, words};
use session::Session;
use std::alloc::{AllocError, Global};
use std::process::ExitCode;
use types::NodeId;

mod log;
mod session;

const BOX: Program = Program {
    name: "box",
    usage: "box NODE",
    about: "The router at NODE: takes frames, and writes what it hands on and says",
    details: DETAILS,
};

const DETAILS: &str = "Frames are read from standard input until its end. In each:
  1 byte   the node that it comes from; NODE itself for what its own sender sends and for what it
           notices itself
  2 bytes  the length of the message, the high byte first
  then     the message
The first frame is the list of links; a later list replaces it, unless the router is switching over.

What the router hands on and says is written to standard output: for each message the neighbour
(1 byte), and the message. A packet that is delivered here comes after NODE itself.

A frame that is refused, or a packet that is dropped, is a line 'frame K: fault N: ..' on standard
error, and the next frame is read; a Switched message that nobody waits for (fault 6) is passed over
in silence.";

// How many bytes of the input are taken at a time.
const ROOM: usize = 65536;

fn command<'a>(alloc: Global) -> Result<Command<'a>, AllocError>
    ensures { IfOk result (λ c. Requires c (codes "NODE")) }
{
    let node = Arg::new(alloc, "NODE")
        .required(true)
        .action(ArgAction::Set)
        .help("A number from 0 to 63");
    BOX.command(alloc).arg(node)
}

// Where the router is to be, by the command line.
fn node_of(alloc: Global, words: &[String]) -> Result<NodeId, Ending>
    ensures { IfOk result (λ node. node < 64) }
{
    let matches = parse(alloc, command(alloc)?, words)?;
    let word = matches.get_str("NODE").unwrap();
    // By hand, since clap's parser of numbers takes a sign.
    match number(word) {
        Some(node) if node < 64 => Ok(NodeId(node)),
        _ => Err(bad_value(alloc, "NODE", word, "not a number from 0 to 63")),
    }
}

fn run(rt: &HostRuntime) -> Result<(), Ending> {
    let words = words(rt)?;
    let me = node_of(rt.alloc(), words.as_slice())?;
    let mut session = Session::new(rt.alloc(), me);
    let end = serve(rt, &mut session);
    session.hand_out(rt)?;
    end
}

// Frames are taken as they come, and what comes of them is written before more is read. The count of the loop only shows
// that it ends: its bound is never reached.
fn serve(rt: &HostRuntime, session: &mut Session) -> Result<(), Ending> {
    let mut room = vec![in rt.alloc(); 0; ROOM]?;
    for _ in 0..usize::MAX {
        let count = read_some(rt, room.as_mut_slice())?;
        if count == 0 {
            break;
        }
        session.take(rt.alloc(), &room.as_slice()[..count])?;
        session.hand_out(rt)?;
    }
    session.end()
}

fn main(rt: HostRuntime) -> ExitCode {
    finish(&rt, BOX.name, run(&rt))
}
