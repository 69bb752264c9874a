//! The commands that read files and change none: `solve`, `query`, `chainquery` and `report`.
#![tactic(auto)]

mod bounds;
mod kept;
mod querying;
mod reporting;
mod solving;

pub use kept::{KeptCodes, kept_codes_at};
pub use querying::{chainquery, query, query_kind};
pub use reporting::run_report;
pub use solving::solve;
