//! The command `verdict` of the program `atlas`: what is shown of a position in chess, and what is
//! believed for it.
#![tactic(auto)]

mod command;
mod finding;
mod texts;
mod verdict;

pub use command::run_verdict;
pub use frz_commands_premises::run_premises;
pub use verdict::Verdict;
