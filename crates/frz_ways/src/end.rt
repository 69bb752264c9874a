//! How a line ends.
ghost use Rattle.std.specs.Prelude.{◌≡◌};
ghost use Rattle.frz_ways.specs.Faults.{fault_of};
ghost use Rattle.frz_ways.specs.declared.end.LineFault.TheVariants.{Output};

use frz_game::Wrong;
use frz_sets::Value;
use frz_store::{Failed, StoreFault};

/// The number of plies after which a line from a hold is cut.
pub const LINE_LIMIT: u32 = 100;

/// How a line ends.
#[derive(Clone, Copy, Debug, PartialEq, Eq, Drop)]
pub enum LineEnd {
    Mate,
    Stalemate,
    /// A move left the set, to a position with this value.
    Exit(Value),
    /// The line holds, and was cut after [`LINE_LIMIT`] plies.
    Cut,
}

/// Why a line is refused or stops before an end of its own.
#[derive(Clone, Copy, Debug, PartialEq, Eq, Drop)]
pub enum LineFault {
    /// The position is not in the set.
    Outside,
    /// The table keeps a failure for the side at the start, so there is no bound to play for.
    NoBound,
    /// At a number that the line came to, the kept code is not the local code.
    Wrong(Wrong),
    /// The store failed.
    Store,
    /// The sink failed.
    Output,
    /// The store had no memory.
    NoMemory,
}

impl From<StoreFault> for LineFault {
    ghost from_gives = { λ fault line. line ≡ fault_of fault };

    fn from(fault: StoreFault) -> LineFault {
        match fault {
            StoreFault::Failed => LineFault::Store,
            StoreFault::NoMemory => LineFault::NoMemory,
        }
    }
}

impl From<Failed> for LineFault {
    ghost from_gives = { λ _ line. line ≡ Output };

    fn from(_failed: Failed) -> LineFault {
        LineFault::Output
    }
}
