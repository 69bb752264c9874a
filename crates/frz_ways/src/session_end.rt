//! How a session ends.
ghost use Rattle.std.specs.Prelude.{◌≡◌};
ghost use Rattle.frz_ways.specs.Faults.{fault_of};
ghost use Rattle.frz_ways.specs.declared.end.LineFault.TheVariants.{Output};
ghost use Rattle.frz_ways.specs.declared.session_end.PlayFault.TheVariants.{Line};

use crate::end::LineFault;
use frz_sets::Value;
use frz_store::{Failed, StoreFault};

/// The most lines that a session reads of its input.
pub const MOST_LINES: u32 = 10_000;

/// The most bytes that a line of the input may have, without its line feed.
pub const MOST_LENGTH: usize = 64;

/// How a session ends.
#[derive(Clone, Copy, Debug, PartialEq, Eq, Drop)]
pub enum SessionEnd {
    Mate,
    Stalemate,
    /// A move left the set, to a position with this value.
    Exit(Value),
    /// The opponent was to move, and the input had no byte left.
    InputEnded,
}

/// Which limit the input of a session exceeds.
#[derive(Clone, Copy, Debug, PartialEq, Eq, Drop)]
pub enum PlayLimit {
    /// The opponent was to move, and [`MOST_LINES`] lines were read before.
    Lines,
    /// A line has more than [`MOST_LENGTH`] bytes.
    LineLength,
}

/// Why a session is refused or stops before an end of its own.
#[derive(Clone, Copy, Debug, PartialEq, Eq, Drop)]
pub enum PlayFault {
    /// A cause that a line can have too.
    Line(LineFault),
    /// The input failed.
    Input,
    Limit(PlayLimit),
}

impl From<StoreFault> for PlayFault {
    ghost from_gives = { λ fault play. play ≡ Line (fault_of fault) };

    fn from(fault: StoreFault) -> PlayFault {
        PlayFault::Line(LineFault::from(fault))
    }
}

/// The sink failed.
impl From<Failed> for PlayFault {
    ghost from_gives = { λ _ play. play ≡ Line Output };

    fn from(_failed: Failed) -> PlayFault {
        PlayFault::Line(LineFault::Output)
    }
}
