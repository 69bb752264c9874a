//! The line that tells at which table a journey goes on.
ghost use Rattle.frz_store.specs.Told.{sink_of};
ghost use Rattle.frz_answer.specs.Texts.{WroteText};
ghost use Rattle.frz_journeys.specs.JourneyTexts.{IsSmall, place_line};

use crate::place::Place;
use frz_answer::{write_numbered_line, write_piece};
use frz_store::{Failed, Sink};

/// Writes the line of a table behind, as `back 1` for the first; for the table itself nothing.
pub fn write_place<O: Sink>(place: Place, out: &mut O) -> Result<(), Failed>
    requires { IsSmall place }
    ensures { WroteText (place_line place) result
        (sink_of O.Sink out.old) (sink_of O.Sink out.new) }
{
    match place {
        Place::Own => write_piece(b"", out),
        Place::Behind(place) => write_numbered_line(b"back ", place as u64 + 1, out),
    }
}
