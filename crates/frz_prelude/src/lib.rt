//! What commands do with their words RULES, TABLE and FEN: they read the rules file and the FEN,
//! find the number of a position in a set, and refuse in one line what a word names wrongly.
//! The crate also writes the lines of bounds, kept codes, wrong entries and other replies.
#![tactic(auto)]

mod causes;
mod file_word;
mod place;
mod refused;
mod refusing;
mod reply;
mod rules_at;
mod rules_file;
mod stop;
mod table_causes;
mod taken;
mod wrong_lines;

pub use file_word::FileWord;
pub use place::number_in;
pub use refused::Refused;
pub use refusing::refuse_named;
pub use reply::{Reply, tell};
pub use rules_at::{RulesText, read_rules_at, read_rules_text};
pub use stop::Stop;
pub use table_causes::write_file_fault;
pub use taken::{take_one, take_position, take_three, take_two};
pub use wrong_lines::write_wrong;
