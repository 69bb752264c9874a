//! How a command ends once its text was written, and the line that names a fault.
ghost use Rattle.std.specs.Prelude.{ℕ, List};
ghost use Rattle.frz_store.specs.Told.{SinkTold, sink_of};
ghost use Rattle.frz_answer.specs.Ends.{Said};
ghost use Rattle.frz_answer.specs.Outcomes.{Finished};
ghost use Rattle.frz_answer.specs.Texts.{WroteText};

use crate::end::{End, SINK_FAULT};
use crate::printing::write_piece;
use crate::status::Status;
use frz_store::{Failed, Sink};

/// The end of a command by what the writing of its text answered: this status where the text was
/// written, and a fault of the sink where it was not.
pub fn said(status: Status, written: Result<(), Failed>) -> End
    ensures { (text : List ℕ) (old new : SinkTold) → WroteText text written old new
        → Said status text result old new }
{
    match written {
        Ok(()) => End::Done(status),
        Err(Failed) => End::SinkFault,
    }
}

/// Writes a command's whole text, and ends it with this status, or with a fault of the sink.
pub fn say<O: Sink>(status: Status, text: &[u8], out: &mut O) -> End
    ensures { Said status text.now result (sink_of O.Sink out.old) (sink_of O.Sink out.new) }
{
    said(status, write_piece(text, out))
}

/// Gives the status with which the program ends. Where a fault stopped the command, it writes the
/// line that names the fault first. A failed write gives the status of the sink's fault.
pub fn finish<O: Sink>(end: End, out: &mut O) -> u8
    ensures { Finished end result (sink_of O.Sink out.old) (sink_of O.Sink out.new) }
{
    let fault = match end {
        End::Done(status) => return status.code(),
        End::SinkFault => return SINK_FAULT,
        End::Stopped(fault) => fault,
    };
    match out.write(fault.line()) {
        Ok(()) => fault.code(),
        Err(_) => SINK_FAULT,
    }
}
