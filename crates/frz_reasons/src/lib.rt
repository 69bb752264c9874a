//! Why a side has no bound, or no win, by the codes of its table.
//!
//! From a failure the codes lead to what is to blame, and no search is needed: where the opponent is
//! to move he spoils as soon as he can, and the side lasts as long as it can. The way ends at a mate
//! of the side, where it has renounced all its moves, or at a position outside the set whose value
//! is bad for it. From a hold each move of the side is told with a reply that denies it a win.
#![tactic(auto)]

mod denial;
mod failing_way;
mod hold;
pub mod laws;
mod looking;
mod reason;
mod texts;
mod turn;

pub use denial::Denial;
pub use failing_way::write_failing_way;
pub use hold::write_denials;
pub use reason::Reason;
