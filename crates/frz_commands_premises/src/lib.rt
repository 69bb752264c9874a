//! The command `premises` of the program `atlas`: what each exit line of a rules text, and of the
//! tables behind it, rests on.
#![tactic(auto)]

mod line;
mod line_texts;
mod lines;
mod premises;

pub use line::Line;
pub use line_texts::write_one;
pub use lines::{count_beliefs, lines_behind, premise_lines, tells_belief};
pub use premises::run_premises;
