//! The laws, one module for each subject.

pub mod bounds;
pub mod codes;
pub mod comparing;
pub mod exactness;
pub mod forcing;
pub mod lines;
pub mod local;
pub mod names;
pub mod plies;
pub mod sessions;
pub mod tables;
pub mod ways;
