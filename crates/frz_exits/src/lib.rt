//! What lies outside the set: the values of positions there, and the moves that rules allow a side.
#![tactic(auto)]

mod book;
mod conditions;
mod fitting;
mod forbidding;
pub mod laws;
mod value;

pub use book::{ExitBook, RuleBook};
pub use fitting::fitting_line;
pub use forbidding::allowed;
pub use frz_arena::Class;
pub use frz_fide::MoveList;
pub use frz_sets::Value;
pub use value::{class, is_unknown, lag};
