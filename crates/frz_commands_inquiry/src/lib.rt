//! The command `ask TABLE BACK ..` of the program `atlas`: positions that the input names line by
//! line are looked up in tables that were loaded once.
#![tactic(auto)]

mod asking;
mod input_line;
mod inquiring;
pub mod laws;
mod places;
mod trimming;

pub use asking::run_ask;
pub use frz_commands_why::laws::why_lawful;
pub use frz_commands_why::run_why;
pub use input_line::MOST_LENGTH;
pub use inquiring::MOST_LINES;
