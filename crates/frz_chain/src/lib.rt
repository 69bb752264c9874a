//! Tables over a second table: where the exit lines of the rules say nothing of a position, the
//! codes of a table that was checked before tell its value.
#![tactic(auto)]

mod back;
mod book;
mod building;
mod checking;
mod fault;
pub mod laws;
mod opening;
mod pair;

pub use back::BackTable;
pub use book::ChainBook;
pub use building::{ReadRules, build_chain, build_over};
pub use checking::{ChainVerdict, check_chain};
pub use fault::ChainFault;
pub use frz_build::{NewTable, build_ruled};
pub use frz_table::FileKind;
pub use opening::open_back;
pub use pair::pair_value;
