//! Table files by planes: both sides are solved a configuration at a time, and the codes are written
//! or compared with those of a file. Where planes do not serve, a number at a time.
#![tactic(auto)]

mod building;
mod judging;
mod loading;
mod same;
mod serving;

pub use building::build_by_planes;
pub use frz_build::{CheckedCodes, NewTable, Verdict};
pub use judging::judge;
pub use loading::{check_kept_by_planes, load_checked_by_planes};
