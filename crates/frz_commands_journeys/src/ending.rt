//! How a command ends after a journey.
ghost use Rattle.frz_store.specs.Told.{sink_of};
ghost use Rattle.frz_answer.specs.Ends.{Said};
ghost use Rattle.frz_answer.specs.declared.status.Status.TheVariants.{Wrong as WrongStatus};
ghost use Rattle.frz_commands_journeys.specs.Endings.{EndsJourney, HasNearPlace, IsNear, wrong_at};

use frz_answer::{End, Status, said};
use frz_atlas_prelude::{AtlasFault, BackFault, end_at};
use frz_commands_line::end_of_session;
use frz_game::Wrong;
use frz_journeys::{Arrival, Place};
use frz_prelude::write_wrong;
use frz_store::Sink;
use frz_ways::{LineFault, PlayFault};

/// Ends the command at a wrong code of the table at this place.
fn end_wrong<O: Sink>(place: Place, wrong: Wrong, out: &mut O) -> End
    requires { IsNear place }
    ensures { Said WrongStatus (wrong_at place wrong) result
        (sink_of O.Sink out.old) (sink_of O.Sink out.new) }
{
    match place {
        Place::Own => said(Status::Wrong, write_wrong(wrong, out)),
        Place::Behind(place) => end_at(AtlasFault::Back(place, BackFault::Wrong(wrong)), out),
    }
}

/// Ends the command after a journey. An end for which the journey itself writes nothing is named
/// here.
pub fn end_of_journey<O: Sink>(arrival: Arrival, out: &mut O) -> End
    requires { HasNearPlace arrival.place arrival.answer }
    ensures { EndsJourney arrival.place arrival.answer result
        (sink_of O.Sink out.old) (sink_of O.Sink out.new) }
{
    match arrival.answer {
        Ok(_) => End::Done(Status::Success),
        Err(PlayFault::Line(LineFault::Wrong(wrong))) => end_wrong(arrival.place, wrong, out),
        Err(fault) => end_of_session(Err(fault), out),
    }
}
