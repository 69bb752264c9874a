//! The reader of rules texts, exact both ways, and the size of the set that rules describe.
#![tactic(auto)]

mod causes;
mod cond_words;
mod fault;
mod forms;
pub mod laws;
mod line;
mod slots;
mod states;
mod stop;
mod text;
mod words;

pub use fault::{LONGEST_TEXT, RulesCause, RulesError, RulesFault};
pub use frz_combinations::binomial;
pub use frz_sets::{Cond, Exit, Forbid, Group, Only, Rules, Test, Value, set_size};
pub use text::read_rules;
