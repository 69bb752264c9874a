//! How a command stops at a fault of a table over a back table.
ghost use Rattle.std.specs.Prelude.{◌≡◌};
ghost use Rattle.frz_commands_chain.specs.Stops.{stop_of_chain};

use frz_answer::Fault;
use frz_chain::ChainFault;
use frz_prelude::{Refused, Stop};

/// How a fault of a chain stops the command: a refusal, or a fault of the store or of memory.
pub fn stop_of(fault: ChainFault) -> Stop
    ensures { result ≡ stop_of_chain fault }
{
    match fault {
        ChainFault::Rules(fault) => Stop::Refused(Refused::Rules(fault)),
        ChainFault::Table(fault) => Stop::Refused(Refused::Table(fault)),
        ChainFault::Back(fault) => Stop::Refused(Refused::Back(fault)),
        ChainFault::BackWrong(wrong) => Stop::Refused(Refused::BackWrong(wrong)),
        ChainFault::Failed => Stop::Fault(Fault::Store),
        ChainFault::NoMemory => Stop::Fault(Fault::NoMemory),
    }
}
