//! The commands on tables over a second table, the back table: `chain` and `chaincheck`.
#![tactic(auto)]

mod chaining;
mod checking;
pub mod laws;
mod reading;
mod stopping;

pub use chaining::chain;
pub use checking::chaincheck;
