//! The laws, of lines and of sessions, and of all ways.

pub mod ends;
pub mod lines;
pub mod sessions;
pub mod ways;
