//! The moves of a number.

use arrayvec::ArrayVec;
use frz_board::Move;
use frz_exits::Value;

/// Where a move leads: to the number of a position of the set, or out of the set to a value.
pub type Next = frz_arena::Next<u32, Value>;

/// A legal move at a number: whether it is free to the mover, and where it leads.
pub type Arm = frz_arena::Arm<Move, u32, Value>;

/// The moves of one number, in move order, at most 1,024.
pub type NextList = ArrayVec<Arm, 1024>;
