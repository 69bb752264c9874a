//! How a command ends at a fault of the rules, of a table or of one of the tables behind it.
ghost use Rattle.std.specs.Prelude.{◌≡◌};
ghost use Rattle.frz_store.specs.Told.{sink_of};
ghost use Rattle.frz_atlas_prelude.specs.BackLines.{back_status as status_of_back};
ghost use Rattle.frz_atlas_prelude.specs.Ending.{EndsAt, HasSmallPlace};

use crate::back_lines::write_back;
use frz_answer::{End, Fault, Status, said};
use frz_atlas::{AtlasFault, BackFault};
use frz_prelude::{Refused, Stop};
use frz_store::Sink;
use frz_table::TableFault;

fn back_status(fault: BackFault) -> Status
    ensures { result ≡ status_of_back fault }
{
    match fault {
        BackFault::Refused(TableFault::Missing) => Status::Missing,
        BackFault::Refused(_) => Status::Table,
        BackFault::Wrong(_) => Status::Wrong,
    }
}

/// Ends the command: writes the line of a refusal; a fault of the store or of memory stops it.
pub fn end_at<O: Sink>(fault: AtlasFault, out: &mut O) -> End
    requires { HasSmallPlace fault }
    ensures { EndsAt fault result (sink_of O.Sink out.old) (sink_of O.Sink out.new) }
{
    match fault {
        AtlasFault::Rules(fault) => Stop::Refused(Refused::Rules(fault)).end(out),
        AtlasFault::Table(fault) => Stop::Refused(Refused::Table(fault)).end(out),
        AtlasFault::Back(place, fault) => said(back_status(fault), write_back(place, fault, out)),
        AtlasFault::Failed => End::Stopped(Fault::Store),
        AtlasFault::NoMemory => End::Stopped(Fault::NoMemory),
    }
}
