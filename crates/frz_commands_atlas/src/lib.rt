//! The commands of the program `atlas`, on tables over several others: `build`, `check`, `each`,
//! `report` and `size`.
#![tactic(auto)]

mod building;
mod checking;
mod each;
mod first_back;
mod first_exits;
mod ranking;
mod reporting;
mod row_lines;
mod rows;
mod size_lines;
mod sizing;
mod verdict_lines;

pub use building::run_build;
pub use checking::run_check;
pub use each::run_each;
pub use reporting::run_report;
pub use sizing::run_size;
