//! What all commands of the program share: how they end, the line that names a fault, and the
//! contract that each command keeps beside its own answers.
#![tactic(auto)]

mod end;
mod fault;
pub mod laws;
mod printing;
mod refusing;
mod saying;
mod status;
mod words;

pub use end::End;
pub use fault::Fault;
pub use printing::{write_line, write_number, write_numbered, write_numbered_line, write_piece};
pub use refusing::refuse;
pub use saying::{finish, said, say};
pub use status::Status;
pub use words::{Refusal, one_word, three_words, two_words};
