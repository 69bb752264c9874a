//! Reports of tables: the mutual zugzwangs of a set, and the exits that no exit line values yet.
#![tactic(auto)]

pub mod census;
mod class;
mod ending;
mod fault;
pub mod laws;
mod reporting;
mod squeeze;
mod texts;
pub mod walk;

pub use class::{Class, class_of};
pub use ending::end_of;
pub use fault::{ReportFault, Totals};
pub use reporting::{report, write_report};
pub use texts::write_totals;
