//! Building table files: both sides of a game are solved after one walk, and the codes of each are
//! written as soon as it is solved.
#![tactic(auto)]

mod building;
mod ruled;
mod writing;

pub use building::{NewTable, build_table};
pub use frz_check::{CheckedCodes, Verdict, check_kept, load_checked};
pub use ruled::build_ruled;
pub use writing::{append_codes, begin_table};
