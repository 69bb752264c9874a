//! Table files over several others: where the exit lines of a text say nothing of a position, the
//! first of these tables whose set holds it tells its value. Each of them was checked first, over
//! those that stand before it.
#![tactic(auto)]

mod building;
mod checking;
mod fault;
mod kinds;
pub mod laws;
mod loading;
mod opening;
mod reading;

pub use building::{build_atlas, build_over};
pub use checking::{Checked, check_atlas};
pub use fault::{AtlasFault, BackFault};
pub use frz_backs::{AtlasBook, BackTable, codes_on, leans};
pub use kinds::open_own;
pub use loading::{load_behind, load_own};
pub use opening::{open_all, open_behind, open_over};
pub use reading::{LoadedAtlas, load_atlas};
