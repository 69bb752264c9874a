//! What the commands on tables and those behind them share: the names that their words give, the
//! lines that refuse one of the tables behind, and how a command ends at what is wrong with a file.
#![tactic(auto)]

mod asked;
mod back_lines;
mod ending;
mod given;
mod names;

pub use asked::{Asked, asked_names};
pub use ending::end_at;
pub use frz_atlas::{AtlasFault, BackFault, load_atlas};
pub use given::{Given, names_given};
pub use names::{MOST_BACKS, build_names, has_twice, is_among, names_with_backs};
