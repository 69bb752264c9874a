//! The fault of a call that runs out of memory.

/// A call needed more memory than there was.
#[derive(Clone, Copy, Debug, PartialEq, Eq)]
pub struct NoMemory;
