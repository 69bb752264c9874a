//! How a command ends after a report.
ghost use Rattle.std.specs.Prelude.{◌≡◌};
ghost use Rattle.frz_report.specs.Ending.{end_by};

use crate::fault::{ReportFault, Totals};
use frz_answer::{End, Fault, Status};

/// The end of a command whose answer is a report: success, or what stopped the report.
pub fn end_of(written: Result<Totals, ReportFault>) -> End
    ensures { result ≡ end_by written }
{
    match written {
        Ok(_) => End::Done(Status::Success),
        Err(ReportFault::Store) => End::Stopped(Fault::Store),
        Err(ReportFault::Output) => End::SinkFault,
        Err(ReportFault::NoMemory) => End::Stopped(Fault::NoMemory),
    }
}
