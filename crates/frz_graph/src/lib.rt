//! A restricted game over numbers, as solvers see it: what each number is, its moves, their codes,
//! and the local code.
#![tactic(auto)]

mod arm;
mod codes;
mod entries;
pub mod laws;
mod lists;
mod local_code;
mod numbered_game;

pub use arm::{Arm, Next, NextList};
pub use codes::exit_code;
pub use entries::{CodeList, Entries, Pair, fill};
pub use frz_exits::{ExitBook, RuleBook, allowed};
pub use lists::Lists;
pub use local_code::{local, local_by};
pub use numbered_game::{NumberedGame, local_at};
