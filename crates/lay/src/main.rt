//! Reads a list of links and prints the distances, the next-hop tables and the repairs of the network.
#![tactic(auto)]

use clap::{Arg, ArgAction, Command};
use cli::{Ending, Program, finish, parse, read_list, words, write_output};
use render::{plan, summary};
use std::alloc::{AllocError, Global};
use std::process::ExitCode;
use wire::parse_links;

const LAY: Program = Program {
    name: "lay",
    usage: "lay [--summary] [FILE]",
    about: "Prints the distances, the next-hop tables and the repairs of a network",
    details: DETAILS,
};

const DETAILS: &str = "What is printed:
  places N   the number of nodes
  distances  a row for each node, a column for each destination; - where there is no path
  tables     the same with next hops; - at the destination itself and where there is no path
  detours    a row for each link, a column for each destination: s:p-q where the end s sends over
             the link and its repair is by p and the link p-q; apart where no path is left; unused
             where no end sends

A refused list is one line 'fault N: ..' on standard error, and status 1.";

const SUMMARY: &str = "Print how many repairs there are, which failures cut whom off, and the
longest repair instead";

// What is to be printed of a network.
#[derive(Clone, Copy)]
enum Text {
    Plan,
    Summary,
}

// What is asked for on the command line: a text of the list in a file, if one is named.
#[derive(Clone, Copy)]
struct Request<'a> {
    text: Text,
    file: Option<&'a str>,
}

fn command<'a>(alloc: Global) -> Result<Command<'a>, AllocError> {
    let summary = Arg::new(alloc, "summary")
        .long("summary")
        .action(ArgAction::SetTrue)
        .help(SUMMARY);
    let file = Arg::new(alloc, "FILE").action(ArgAction::Set).help(
        "The list of links, in bytes; standard input where none is named",
    );
    // As ever, `--summary` twice is as once.
    LAY.command(alloc)
        .args_override_self(true)
        .arg(summary)?
        .arg(file)
}

fn request_of<'a>(alloc: Global, words: &'a [String]) -> Result<Request<'a>, Ending> {
    let matches = parse(alloc, command(alloc)?, words)?;
    let text = if matches.get_flag("summary") {
        Text::Summary
    } else {
        Text::Plan
    };
    Ok(Request {
        text,
        file: matches.get_str("FILE"),
    })
}

// A text is put together whole before anything is printed.
fn run(rt: &HostRuntime) -> Result<(), Ending> {
    let words = words(rt)?;
    let request = request_of(rt.alloc(), words.as_slice())?;
    let list = read_list(rt, request.file)?;
    let topology = parse_links(rt.alloc(), list.as_slice())?;
    let bytes = match request.text {
        Text::Plan => plan(rt.alloc(), &topology)?,
        Text::Summary => summary(rt.alloc(), &topology)?.into_bytes(),
    };
    write_output(rt, bytes.as_slice())
}

fn main(rt: HostRuntime) -> ExitCode {
    finish(&rt, LAY.name, run(&rt))
}
