ghost use Rattle.std.specs.Prelude.{◌≡◌, ◌≢◌, IfErr, OnOk};
ghost use Rattle.std.specs.Process.{exit_status};
ghost use Rattle.cli.specs.Ending.{status_of};

use std::alloc::AllocError;
use std::io;
use std::process::ExitCode;
use thiserror::Error;
use wire::{LinksError, ReadError};

/// Why a program ends before its work is done.
#[derive(Debug, Drop, Error)]
pub enum Ending {
    /// Help or the version is asked for: a text that is printed in place of all else.
    #[error("{0}")]
    Help(String),
    /// The command line is bad: a line that says how.
    #[error("{0}")]
    CommandLine(String),
    /// Something can't be read: a line that names it, and the cause.
    #[error("{0}")]
    Unreadable(String),
    /// Standard output can't be written.
    #[error("standard output: {0}")]
    Unwritable(io::Error),
    /// A line of a script can't be played: a line that says which, and why.
    #[error("{0}")]
    BadLine(String),
    /// A list of links is refused.
    #[error("{0}")]
    List(ReadError),
    /// There is no memory left.
    #[error("out of memory")]
    Memory(#[from(alloc)] AllocError),
}

impl From<LinksError> for Ending {
    fn from(error: LinksError) -> Ending {
        match error {
            LinksError::Refused(error) => Ending::List(error),
            LinksError::Memory(error) => Ending::Memory(error),
        }
    }
}

impl Ending {
    /// The status that the program ends with.
    pub fn status(&self) -> u8
        ensures { result ≡ status_of self.now }
    {
        match self {
            Ending::Help(_) => 0,
            Ending::CommandLine(_) => 2,
            _ => 1,
        }
    }

    // Says it on standard error.
    fn report(&self, rt: &impl Eprint, name: &str) {
        let written = match self {
            Ending::CommandLine(line) => eprintln!(rt; "{line}\ntry '{name} --help'"),
            ending => eprintln!(rt; "{ending}"),
        };
        match written {
            Ok(()) => {}
            // There is no other place to say it; the status does.
            Err(_) => {}
        }
    }
}

/// Writes the bytes to standard output.
pub fn write_output(rt: &impl Print, bytes: &[u8]) -> Result<(), Ending>
    ensures { IfErr result (λ ending. status_of ending ≡ 1) }
{
    rt.write_all(bytes).map_err(Ending::Unwritable)
}

/// Prints the help that was asked for, or says on standard error why the program `name` ends early. Where help can't be
/// printed, that is why.
pub fn finish<R: Print + Eprint>(rt: &R, name: &str, end: Result<(), Ending>) -> ExitCode
    ensures done { OnOk end (exit_status result ≡ 0) }
    ensures early { IfErr end (λ ending. status_of ending ≢ 0 → exit_status result ≡ status_of ending) }
{
    let end = match end {
        Err(Ending::Help(text)) => write_output(rt, text.as_bytes()),
        end => end,
    };
    match end {
        Ok(()) => ExitCode::SUCCESS,
        Err(ending) => {
            ending.report(rt, name);
            ExitCode::from(ending.status())
        }
    }
}
