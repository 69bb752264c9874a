//! Table files of the former format, which are read and never written.
#![tactic(auto)]

mod old;

pub use old::{OldFile, open_old};
