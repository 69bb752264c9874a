//! What tests of other crates share: table files made by hand, put together byte by byte without the
//! code that writes and reads tables, stores that hold them, and what a call takes.
#![tactic(auto)]

pub mod blocked;
mod bytes;
mod calls;
pub mod rook;
mod stores;

pub use bytes::{plain_file, table_file};
pub use calls::{call_fails, empty_sink, no_fails, words_of};
pub use stores::store_with;
