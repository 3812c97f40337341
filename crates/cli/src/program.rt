use clap::Command;
use std::alloc::Global;

/// The version of the programs.
const VERSION: &str = "0.1.0";

/// A program's name, and what its help says.
#[derive(Clone, Copy)]
pub struct Program<'a> {
    pub name: &'a str,
    /// How it is called.
    pub usage: &'a str,
    /// What it does, in one line.
    pub about: &'a str,
    /// What stands below its arguments.
    pub details: &'a str,
}

impl<'a> Program<'a> {
    ghost use Rattle.cli.specs.CommandLine.{IsBare, Shows};

    /// Its command line: it takes `--help` and `--version`, and no argument yet.
    pub fn command(&self, alloc: Global) -> Command<'a>
        ensures bare { IsBare result }
        ensures texts { Shows self.now result }
    {
        Command::new(alloc, self.name)
            .version(VERSION)
            .about(self.about)
            .override_usage(self.usage)
            .after_help(self.details)
    }
}
