//! The words of a command line.
//!
//! `read_words` answers the command that they ask for, by the grammar of `specs/Grammar.antt`, or
//! that they ask for none. The words after the command word are read by `clap`.
#![tactic(auto)]

mod command;
mod kind;
mod line;
mod number;
mod read;
mod settings;

pub use command::{Command, WordsFault};
pub use read::read_words;
