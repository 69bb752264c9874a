//! How a command ends.
ghost use Rattle.std.specs.Prelude.{◌≡◌};
ghost use Rattle.frz_answer.specs.Statuses.{end_of_fault};

use crate::fault::Fault;
use crate::status::Status;
use frz_store::StoreFault;

/// The program's status where the sink failed. No line can name this fault.
pub const SINK_FAULT: u8 = 9;

/// How a command ends: with a status of its own and its whole text written, or at its first fault.
#[derive(Clone, Copy, Debug, PartialEq, Eq, Drop)]
pub enum End {
    Done(Status),
    SinkFault,
    Stopped(Fault),
}

impl From<StoreFault> for End {
    ghost from_gives = { λ fault end. end ≡ end_of_fault fault };

    fn from(fault: StoreFault) -> End {
        match fault {
            StoreFault::Failed => End::Stopped(Fault::Store),
            StoreFault::NoMemory => End::Stopped(Fault::NoMemory),
        }
    }
}
