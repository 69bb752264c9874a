//! The table file: one file with a rules text and, for each side, one code for each number of the
//! set (each position has its own number). Files are opened, read and written here; what the codes
//! mean is not known here.
#![tactic(auto)]

mod codes;
mod fault;
mod head;
mod kind;
pub mod laws;
mod lists;
mod loading;
mod numbers;
mod opening;
mod other;
mod sizes;
mod table;
mod texts;
mod writing;

pub use codes::load_codes;
pub use fault::TableFault;
pub use frz_index::Set;
pub use kind::FileKind;
pub use opening::{open_kind, open_own, open_table};
pub use other::OtherFile;
pub use sizes::check_size;
pub use table::TableFile;
pub use texts::{Text, open_text};
pub use writing::{write_entries, write_header, write_header_kind};
