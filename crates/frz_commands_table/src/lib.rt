//! The commands that make tables and check them: `build`, `check`, `migrate` and `sample`.
#![tactic(auto)]

mod building;
mod checking;
mod judging;
pub mod laws;
mod migrating;
mod moving;
mod sample;
mod tallies;

pub use building::build;
pub use checking::check;
pub use migrating::migrate;
pub use sample::run_sample;
