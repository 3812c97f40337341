use crate::ending::{Ending, finish, write_output};
use crate::input::first_bytes;
use crate::name::Name;
use crate::{Program, bad_value, parse};
use clap::{Arg, ArgAction};
use std::alloc::Global;
use std::fmt::Display;
use std::io;
use std::io::{ErrorKind, Read};
use std::process::ExitCode;
use std::test::Fail;

const PLAY: Program = Program {
    name: "play",
    usage: "play [--loud] FILE",
    about: "Plays a file",
    details: "Every line is a tone.",
};

fn ending_at<'a>(alloc: Global, words: &'a [String]) -> Result<Option<Ending>, Fail> {
    let loud = Arg::new(alloc, "loud")
        .long("loud")
        .action(ArgAction::SetTrue);
    let file = Arg::new(alloc, "FILE")
        .required(true)
        .action(ArgAction::Set);
    let command = PLAY.command(alloc).arg(loud)?.arg(file)?;
    match parse(alloc, command, words) {
        Ok(_) => Ok(None),
        Err(ending) => Ok(Some(ending)),
    }
}

fn text_at(alloc: Global, line: &str) -> Result<String, Fail> {
    let mut words = Vec::new(alloc);
    for word in line.split('|') {
        words.push(String::from_str(alloc, word)?)?;
    }
    match ending_at(alloc, words.as_slice())? {
        None => Ok(String::from_str(alloc, "taken")?),
        Some(ending) => Ok(format!(in alloc; "{}: {ending}", ending.status())?),
    }
}

#[test]
fn a_bad_command_line_is_one_line(rt: HostRuntime) -> Result<(), Fail> {
    for (line, want) in [
        ("play|a", "taken"),
        ("play|--loud|--|--a", "taken"),
        ("play|a|b", "2: error: unexpected argument 'b' found"),
        ("play|a|b\nc", "2: error: unexpected argument 'b\\nc' found"),
        (
            "play|--lout|a",
            "2: error: unexpected argument '--lout' found",
        ),
        (
            "play",
            "2: error: the following required arguments were not provided: <FILE>",
        ),
        ("play|-V", "0: play 0.1.0\n"),
    ] {
        assert_eq!(rt; text_at(rt.alloc(), line)?.as_str(), want, "at {line}");
    }
    Ok(())
}

#[test]
fn help_has_the_texts_of_the_program(rt: HostRuntime) -> Result<(), Fail> {
    let help = "0: Plays a file

Usage: play [--loud] FILE

Arguments:
  <FILE>  

Options:
      --loud     
  -h, --help     Print help
  -V, --version  Print version

Every line is a tone.
";
    for line in ["play|-h", "play|--help|a|b"] {
        assert_eq!(rt; text_at(rt.alloc(), line)?.as_str(), help);
    }
    Ok(())
}

#[test]
fn names_stay_on_one_line(rt: HostRuntime) -> Result<(), Fail> {
    for (name, want) in [
        (None, "standard input"),
        (Some(""), "''"),
        (Some("it's a \\ \"Käse\""), "it's a \\ \"Käse\""),
        (
            Some("a\nb\r\t\u{1b}[0m\u{85}\u{2028}"),
            "a\\nb\\r\\t\\u{1b}[0m\\u{85}\\u{2028}",
        ),
    ] {
        let name = Name(name);
        assert_eq!(rt; format!(in rt.alloc(); "{name}")?.as_str(), want);
    }
    Ok(())
}

#[test]
fn a_bad_value_says_why(rt: HostRuntime) -> Result<(), Fail> {
    let ending = bad_value(rt.alloc(), "FILE", "a\nb", "no file");
    let want = "error: invalid value 'a\\nb' for '<FILE>': no file";
    assert_eq!(rt; format!(in rt.alloc(); "{ending}")?.as_str(), want);
    Ok(())
}

// Standard output and standard error that can't be written.
struct Closed;

impl Print for Closed {
    fn print<D: Display + Drop>(&self, _value: D) -> io::Result<()> {
        Err(io::Error::from(ErrorKind::BrokenPipe))
    }

    fn println<D: Display + Drop>(&self, _value: D) -> io::Result<()> {
        Err(io::Error::from(ErrorKind::BrokenPipe))
    }

    fn write_all(&self, _bytes: &[u8]) -> io::Result<()> {
        Err(io::Error::from(ErrorKind::BrokenPipe))
    }
}

impl Eprint for Closed {
    fn eprint<D: Display + Drop>(&self, _value: D) -> io::Result<()> {
        Err(io::Error::from(ErrorKind::BrokenPipe))
    }

    fn eprintln<D: Display + Drop>(&self, _value: D) -> io::Result<()> {
        Err(io::Error::from(ErrorKind::BrokenPipe))
    }
}

fn status(code: ExitCode, alloc: Global) -> Result<String, Fail> {
    Ok(format!(in alloc; "{code:?}")?)
}

#[test]
fn help_that_cannot_be_printed_is_a_failure(rt: HostRuntime) -> Result<(), Fail> {
    let help = Ending::Help(String::from_str(rt.alloc(), "help")?);
    let code = finish(&Closed, "play", Err(help));
    assert_eq!(rt;
        status(code, rt.alloc())?.as_str(),
        "ExitCode(unix_exit_status(1))"
    );
    assert!(rt; write_output(&Closed, b"a").is_err());
    Ok(())
}

// Three bytes, and then an error.
#[derive(Drop)]
struct Torn {
    read: bool,
}

impl Read for Torn {
    fn read(&mut self, buf: &mut [u8]) -> io::Result<usize> {
        if self.read || buf.len() < 3 {
            return Err(io::Error::from(ErrorKind::ConnectionReset));
        }
        self.read = true;
        buf[..3].copy_from_slice(b"abc");
        Ok(3)
    }
}

#[test]
fn a_reader_is_read_no_further_than_asked(rt: HostRuntime) -> Result<(), Fail> {
    let bytes = first_bytes(rt.alloc(), Torn { read: false }, 3)?;
    assert_eq!(rt; bytes.as_slice(), b"abc".as_slice());
    assert!(rt; first_bytes(rt.alloc(), Torn { read: false }, 4).is_err());
    Ok(())
}
