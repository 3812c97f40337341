//! Plays a whole network by a script: links fail, messages arrive, routers switch over, and packets go.
#![tactic(auto)]

ghost use Rattle.std.specs.Prelude.{IfOk, codes};
ghost use Rattle.cli.specs.CommandLine.{Requires};

use clap::{Arg, ArgAction, Command};
use cli::{Ending, Program, finish, parse, read, read_list, words, write_output};
use network::Network;
use printing::Number;
use stage::Stage;
use std::alloc::{AllocError, Global};
use std::process::ExitCode;
use wire::parse_links;

mod bad_line;
mod printing;
mod script;
mod stage;

const TEAR: Program = Program {
    name: "tear",
    usage: "tear LINKS [SCRIPT]",
    about: "Plays a network by a script, line by line",
    details: DETAILS,
};

const DETAILS: &str = "The lines of a script; empty lines and what follows # are skipped:
  close A B              the link fails, and its two ends know
  words                  prints the messages under way, numbered from 1
  deliver K              message K arrives
  again K                message K arrives, and stays under way
  deliver all            all arrive, lowest number first, until none is under way
  over U D               router U switches for D if it may; else prints whom it waits for
  over all               all routers switch that may, until none may
  send S D [SEGMENT ..]  a packet goes from S to D; a segment is a node X or a link A-B, up to 3 of
                         them
  put S D [SEGMENT ..]   the same, but it waits at S
  hop P                  packet P is handled once; packets are numbered from 1
  run P                  packet P goes on to its end
  state                  prints what each router knows, and its present table

A bad line is one line 'line K: ..' on standard error, and status 1; nothing after it is played.
A refused list is one line 'fault N: ..' on standard error, and status 1.";

fn command<'a>(alloc: Global) -> Result<Command<'a>, AllocError>
    ensures { IfOk result (λ c. Requires c (codes "LINKS")) }
{
    let links = Arg::new(alloc, "LINKS")
        .required(true)
        .action(ArgAction::Set)
        .help("The list of links, in bytes");
    let script = Arg::new(alloc, "SCRIPT")
        .action(ArgAction::Set)
        .help("The script; standard input where none is named");
    TEAR.command(alloc).arg(links)?.arg(script)
}

// What is asked for on the command line: a list of links, and the script, if one is named.
#[derive(Clone, Copy)]
struct Request<'a> {
    links: &'a str,
    script: Option<&'a str>,
}

fn request_of<'a>(alloc: Global, words: &'a [String]) -> Result<Request<'a>, Ending> {
    let matches = parse(alloc, command(alloc)?, words)?;
    Ok(Request {
        links: matches.get_str("LINKS").unwrap(),
        script: matches.get_str("SCRIPT"),
    })
}

// Plays a script to its end, or to the first bad line.
fn play_script(heap: Global, stage: &mut Stage, script: &[u8]) -> Result<(), Ending> {
    for (k, line) in script.split(|byte| *byte == b'\n').enumerate() {
        if let Err(bad) = stage.play_line(heap, line) {
            let number = Number(k);
            return Err(Ending::BadLine(format!(in heap; "line {number}: {bad}")?));
        }
    }
    Ok(())
}

fn run(rt: &HostRuntime) -> Result<(), Ending> {
    let words = words(rt)?;
    let request = request_of(rt.alloc(), words.as_slice())?;
    let list = read_list(rt, Some(request.links))?;
    let topology = parse_links(rt.alloc(), list.as_slice())?;
    let script = read(rt, request.script)?;
    let mut stage = Stage::new(rt.alloc(), Network::new(rt.alloc(), &topology)?);
    let end = play_script(rt.alloc(), &mut stage, script.as_slice());
    write_output(rt, stage.printed().as_bytes())?;
    end
}

fn main(rt: HostRuntime) -> ExitCode {
    finish(&rt, TEAR.name, run(&rt))
}
