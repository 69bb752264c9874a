//! What a report answers: its totals, or what stops it.
ghost use Rattle.std.specs.Prelude.{◌≡◌};
ghost use Rattle.frz_report.specs.declared.fault.ReportFault.TheVariants as faults;

use frz_board::NoMemory;
use frz_store::Failed;

/// The totals of a report's last line: the mutual zugzwangs (`squeezes`) and the open exits
/// (`unassigned`).
#[derive(Clone, Copy, Debug, PartialEq, Eq, Drop)]
pub struct Totals {
    pub squeezes: u64,
    pub unassigned: u64,
}

/// What stops a report.
#[derive(Clone, Copy, Debug, PartialEq, Eq, Drop)]
pub enum ReportFault {
    /// The store failed.
    Store,
    /// The sink failed.
    Output,
    /// There was no memory.
    NoMemory,
}

impl From<Failed> for ReportFault {
    ghost from_gives = { λ _ fault. fault ≡ faults.Output };

    fn from(_failed: Failed) -> ReportFault {
        ReportFault::Output
    }
}

impl From<NoMemory> for ReportFault {
    ghost from_gives = { λ _ fault. fault ≡ faults.NoMemory };

    fn from(_none: NoMemory) -> ReportFault {
        ReportFault::NoMemory
    }
}
