//! The restricted game over the numbers of a set.
#![tactic(auto)]

mod game;
pub mod laws;
mod numbered;
mod wrong;

pub use frz_arena::{Bound, Node, bound_of, code};
pub use frz_graph::{
    Arm, CodeList, Entries, ExitBook, Lists, Next, NextList, NumberedGame, Pair, RuleBook,
    exit_code, fill, local, local_by,
};
pub use game::Game;
pub use wrong::Wrong;
