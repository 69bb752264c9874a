//! What stops a command: a refusal or a fault.
ghost use Rattle.std.specs.Prelude.{◌≡◌};
ghost use Rattle.frz_store.specs.Told.{sink_of};
ghost use Rattle.frz_answer.specs.Ends.{Said};
ghost use Rattle.frz_prelude.specs.Refusals.{status_of, refusal_line as line_of};
ghost use Rattle.frz_prelude.specs.Stops.{EndsBy, stop_of_fault, stop_of_table};

use crate::causes::write_refusal;
use crate::refused::Refused;
use frz_answer::{End, Fault, said};
use frz_board::NoMemory;
use frz_store::{Sink, StoreFault};
use frz_table::TableFault;

/// What stops a command before it can reply: what its words name is refused, or a fault came.
#[derive(Clone, Copy, PartialEq, Eq, Drop)]
pub enum Stop {
    Refused(Refused),
    Fault(Fault),
}

impl From<Refused> for Stop {
    ghost use Rattle.frz_prelude.specs.declared.stop.Stop.{Stop};

    ghost from_gives = { λ why stop. stop ≡ Stop.Refused why };

    fn from(why: Refused) -> Stop {
        Stop::Refused(why)
    }
}

impl From<NoMemory> for Stop {
    ghost use Rattle.frz_answer.specs.declared.fault.Fault.{Fault};
    ghost use Rattle.frz_prelude.specs.declared.stop.Stop.{Stop};

    ghost from_gives = { λ none stop. stop ≡ Stop.Fault Fault.NoMemory };

    fn from(_: NoMemory) -> Stop {
        Stop::Fault(Fault::NoMemory)
    }
}

impl From<StoreFault> for Stop {
    ghost from_gives = { λ fault stop. stop ≡ stop_of_fault fault };

    fn from(fault: StoreFault) -> Stop {
        match fault {
            StoreFault::Failed => Stop::Fault(Fault::Store),
            StoreFault::NoMemory => Stop::Fault(Fault::NoMemory),
        }
    }
}

impl From<TableFault> for Stop {
    ghost from_gives = { λ fault stop. stop ≡ stop_of_table fault };

    fn from(fault: TableFault) -> Stop {
        match fault {
            TableFault::Failed => Stop::Fault(Fault::Store),
            TableFault::NoMemory => Stop::Fault(Fault::NoMemory),
            _ => Stop::Refused(Refused::Table(fault)),
        }
    }
}

/// Writes the line that says why something is refused, and ends the command with its status.
fn say_refusal<O: Sink>(why: Refused, out: &mut O) -> End
    ensures { Said (status_of why) (line_of why) result
        (sink_of O.Sink out.old) (sink_of O.Sink out.new) }
{
    said(why.status(), write_refusal(why, out))
}

impl Stop {
    /// Ends the command. A refusal writes its line; a fault writes nothing here.
    pub fn end<O: Sink>(self, out: &mut O) -> End
        ensures { EndsBy self result (sink_of O.Sink out.old) (sink_of O.Sink out.new) }
    {
        match self {
            Stop::Refused(why) => say_refusal(why, out),
            Stop::Fault(fault) => End::Stopped(fault),
        }
    }
}
