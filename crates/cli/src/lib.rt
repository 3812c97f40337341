//! What the programs have in common: a command line, numbers, what they read and write, and how they end.
#![tactic(auto)]

mod command_line;
mod digits;
mod ending;
mod input;
mod name;
mod program;
#[cfg(test)]
mod tests;

pub use command_line::{bad_value, parse, words};
pub use digits::number;
pub use ending::{Ending, finish, write_output};
pub use input::{read, read_list, read_some};
pub use program::Program;
