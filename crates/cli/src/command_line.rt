ghost use Rattle.std.specs.Prelude.{◌≡◌, ◌⊎◌, IfOk, IfErr, true, map, string_bytes};
ghost use Rattle.clap.specs.Words.{HasMatchesOf, IsParsedFrom, app_of, fault_of, is_simple_and_free, kind_of, takes};
ghost use Rattle.cli.specs.CommandLine.{EndsBy, IsBadCommandLine, IsForMemory, ParsesUnless};

use crate::ending::Ending;
use crate::name::OneLine;
use clap::error::ErrorKind;
use clap::{ArgMatches, Command};
use std::alloc::{AllocError, Global};
use std::fmt::Display;
use std::rt::Env;
use std::{env, io};

/// The words of the command line, of which the first is the program's name.
pub fn words<R: Env + AllocGlobal>(rt: &R) -> Result<Vec<String>, Ending>
    ensures { IfErr result (λ ending. IsBadCommandLine ending ⊎ IsForMemory ending) }
{
    let alloc = rt.alloc();
    match env::args(rt) {
        Ok(words) => words.collect(alloc).map_err(Ending::Memory),
        Err(e) if e.kind() == io::ErrorKind::InvalidData => {
            Err(bad_command_line(alloc, "an argument that is not UTF-8"))
        }
        // There is no other cause.
        Err(_) => Err(Ending::Memory(AllocError)),
    }
}

/// What the words of the command line say, by the command's arguments.
pub fn parse<'a>(
    alloc: Global,
    command: Command<'a>,
    words: &'a [String],
) -> Result<ArgMatches<'a>, Ending>
    ensures parsed { IfOk result (λ m. IsParsedFrom command.entry m) }
    ensures matches { IfOk result
        (HasMatchesOf (app_of command.entry) (map string_bytes words.entry.now)) }
    ensures taken { IfErr result (λ ending.
        takes (app_of command.entry) (map string_bytes words.entry.now) ≡ true → IsForMemory ending) }
    ensures refused { is_simple_and_free (app_of command.entry) ≡ true
        → ParsesUnless (fault_of (app_of command.entry) (map string_bytes words.entry.now)) result }
{
    match command.try_get_matches_from(words) {
        Ok(matches) => Ok(matches),
        Err(error) => match ending_of(alloc, &error) {
            Ok(ending) => Err(ending),
            Err(error) => Err(Ending::Memory(error)),
        },
    }
}

/// The ending where the argument called `name` doesn't take a value, and why.
pub fn bad_value(alloc: Global, name: &str, value: &str, why: &str) -> Ending
    ensures { IsBadCommandLine result ⊎ IsForMemory result }
{
    let value = OneLine(value);
    bad_command_line(
        alloc,
        format_args!("invalid value '{value}' for '<{name}>': {why}"),
    )
}

// The ending at a bad command line, worded as clap does.
fn bad_command_line<D: Display + Drop>(alloc: Global, why: D) -> Ending
    ensures { IsBadCommandLine result ⊎ IsForMemory result }
{
    match format!(in alloc; "error: {why}") {
        Ok(line) => Ending::CommandLine(line),
        Err(error) => Ending::Memory(error),
    }
}

// What clap answers in place of matches: help or the version, or what is wrong.
fn ending_of(alloc: Global, error: &clap::Error) -> Result<Ending, AllocError>
    ensures { IfOk result (EndsBy (kind_of error.now)) }
{
    match error.kind() {
        ErrorKind::OutOfMemory => Err(AllocError),
        ErrorKind::DisplayHelp | ErrorKind::DisplayVersion => {
            Ok(Ending::Help(format!(in alloc; "{error}")?))
        }
        _ => Ok(Ending::CommandLine(first_line(alloc, error)?)),
    }
}

// The first paragraph of clap's message, on one line. What is left out is usage and hints.
fn first_line(alloc: Global, error: &clap::Error) -> Result<String, AllocError> {
    let text = format!(in alloc; "{error}")?;
    let message = first_paragraph(text.as_str()).replace(alloc, "\n  ", " ")?;
    let line = OneLine(message.as_str());
    format!(in alloc; "{line}")
}

// What stands before the first empty line.
fn first_paragraph(text: &str) -> &str {
    match text.split_once("\n\n") {
        Some((paragraph, _)) => paragraph,
        None => text,
    }
}
