//! Rules as values: groups, forbid lines and exit lines; the
//! set that groups describe, its size, and when rules are sound.
#![tactic(auto)]

mod exit;
mod forbid;
mod group;
mod having;
mod limits;
mod rules;
mod size;
mod targets;

pub use exit::{Cond, Exit, Test, Value};
pub use forbid::{Forbid, Only};
pub use group::Group;
pub use having::has_state;
pub use limits::{
    MOST_CONDS, MOST_EXITS, MOST_FORBIDS, MOST_GROUPS, MOST_LAG, MOST_MEN, MOST_NUMBERS,
    MOST_STATES,
};
pub use rules::Rules;
pub use size::{radix, set_size};
pub use targets::{is_target, pawn_cell, target_count};
