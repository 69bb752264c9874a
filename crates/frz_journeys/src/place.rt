//! Where a journey is, and where it arrives.

use frz_ways::{PlayFault, WayEnd};

/// A table of a journey.
#[derive(Clone, Copy, Debug, PartialEq, Eq)]
pub enum Place {
    /// The table itself.
    Own,
    /// The table behind it at this place; the first has place 0.
    Behind(usize),
}

/// The table at which a journey stopped, and what it answers there.
#[derive(Clone, Copy)]
pub struct Arrival {
    pub place: Place,
    pub answer: Result<WayEnd, PlayFault>,
}
