//! A file in memory that may still grow.
use crate::reserved::Reserved;

/// The file that was created last: its name, its bytes and the room that is reserved for more.
#[derive(Drop)]
pub struct GrowingFile {
    pub name: String,
    pub held: Reserved,
}
