//! How a command ends after a line or a session.
ghost use Rattle.frz_store.specs.Told.{sink_of};
ghost use Rattle.frz_commands_line.specs.LineEnds.{EndsLine};
ghost use Rattle.frz_commands_line.specs.SessionEnds.{EndsSession};

use frz_answer::{End, Fault, Status, said, say};
use frz_prelude::{Refused, Stop, write_wrong};
use frz_store::Sink;
use frz_ways::{LineEnd, LineFault, PlayFault, PlayLimit, SessionEnd};

/// Ends the command after a line. An end for which the line itself writes nothing is named here.
pub fn end_of_line<O: Sink>(line: Result<LineEnd, LineFault>, out: &mut O) -> End
    ensures { EndsLine line result (sink_of O.Sink out.old) (sink_of O.Sink out.new) }
{
    match line {
        Ok(_) => End::Done(Status::Success),
        Err(LineFault::Outside) => Stop::Refused(Refused::Outside).end(out),
        Err(LineFault::NoBound) => say(Status::Outside, b"no bound\n", out),
        Err(LineFault::Wrong(wrong)) => said(Status::Wrong, write_wrong(wrong, out)),
        Err(LineFault::Store) => End::Stopped(Fault::Store),
        Err(LineFault::Output) => End::SinkFault,
        Err(LineFault::NoMemory) => End::Stopped(Fault::NoMemory),
    }
}

/// Ends the command after a session, which ends as a line where a line can meet the fault.
pub fn end_of_session<O: Sink>(session: Result<SessionEnd, PlayFault>, out: &mut O) -> End
    ensures { EndsSession session result (sink_of O.Sink out.old) (sink_of O.Sink out.new) }
{
    match session {
        Ok(_) => End::Done(Status::Success),
        Err(PlayFault::Line(fault)) => end_of_line(Err(fault), out),
        Err(PlayFault::Input) => End::Stopped(Fault::Input),
        Err(PlayFault::Limit(PlayLimit::Lines)) => say(Status::Limit, b"limit lines\n", out),
        Err(PlayFault::Limit(PlayLimit::LineLength)) => {
            say(Status::Limit, b"limit line length\n", out)
        }
    }
}
