//! Several tables behind the exit lines of another: where the lines say nothing of a position, the
//! first table whose set holds it tells its value.
#![tactic(auto)]

mod behind;
mod book;
mod codes;
mod counts;
pub mod laws;
mod lines;

pub use book::AtlasBook;
pub use codes::codes_on;
pub use counts::{Counts, lines_count};
pub use frz_chain::{BackTable, NewTable, ReadRules, build_ruled};
pub use lines::{leans, line_over};
