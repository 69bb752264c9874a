//! The checker of tables: each code is compared with its local code, the one that the codes one ply
//! on give. A file passes exactly if it is the one file of its text.
#![tactic(auto)]

mod entries;
pub mod laws;
mod loading;
mod tables;
mod verdict;

pub use entries::check_entries;
pub use frz_game::{ExitBook, Game, Pair, RuleBook, Wrong};
pub use loading::{CheckedCodes, load_checked};
pub use tables::{check_kept, check_table};
pub use verdict::Verdict;
