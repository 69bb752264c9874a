//! What the programs share around their top calls: the words of the command line, or why there are
//! none, and the command that they name.
#![tactic(auto)]

mod command;
mod words;

pub use command::{Named, read_command};
pub use words::{NoWords, command_words};
