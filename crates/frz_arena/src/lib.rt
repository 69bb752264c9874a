//! Laws of the restricted game over any graph of positions: within how many plies a side wins or
//! fails, its bound, the codes of bounds, and what a win or a hold says of chess.
//!
//! The restricted game is chess from a position of a set, where a side may renounce moves, and a
//! move that leaves the set ends the game by a value. Moves, positions and values are the type
//! parameters `M`, `N` (or `P`, for those of chess) and `V`. The graph is called an arena, and a
//! legal move in it an arm.
//!
//! Each law is a public function that does nothing: whoever calls it may use what its contract
//! says.
#![tactic(auto)]

mod arm;
mod best;
mod bound;
mod choice;
mod class;
mod codes;
pub mod laws;
mod local;
mod node;

pub use arm::{Arm, Next};
pub use best::Best;
pub use bound::{Bound, bound_of, code};
pub use choice::{Choice, choose};
pub use class::{Class, exit_code};
pub use codes::{is_failure, is_win};
pub use local::local_code;
pub use node::Node;
