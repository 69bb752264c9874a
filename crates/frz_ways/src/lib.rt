//! Games that a side plays by the codes of a table file, called ways: its best line, where the
//! codes find the opponent's moves too, and sessions, where the lines of an input say them.
#![tactic(auto)]

mod best;
mod choosing;
mod due;
mod end;
mod hearing;
mod input_line;
mod kept_codes;
pub mod laws;
mod loaded;
mod naming;
mod opponent;
mod playing;
mod reading;
mod seeing;
mod session;
mod session_end;
mod shown;
mod start;
mod texts;
mod way;
mod way_end;

pub use best::best_line;
pub use end::{LINE_LIMIT, LineEnd, LineFault};
pub use hearing::Reader;
pub use kept_codes::{KeptCodes, Loaded, Nowhere};
pub use loaded::play_loaded;
pub use opponent::{Opponent, Player};
pub use reading::read_codes;
pub use session::play_session;
pub use session_end::{MOST_LENGTH, MOST_LINES, PlayFault, PlayLimit, SessionEnd};
pub use shown::play_shown;
pub use texts::write_value;
pub use way_end::{Finish, WayEnd, end_answer};
