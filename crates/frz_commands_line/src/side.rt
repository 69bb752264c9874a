//! The word SIDE of a command.
ghost use Rattle.std.specs.Prelude.{◌≡◌};
ghost use Rattle.frz_store.specs.Told.{sink_of};
ghost use Rattle.frz_answer.specs.Ends.{Said};
ghost use Rattle.frz_answer.specs.declared.status.Status.TheVariants.{Words};
ghost use Rattle.frz_commands_line.specs.Sides.{side_of, side_line};

use frz_answer::{End, Status, say};
use frz_board::Colour;
use frz_store::Sink;

/// The side that the word names: `white` or `black`, and nothing else.
pub fn read_side(word: &str) -> Option<Colour>
    ensures { result ≡ side_of word.now }
{
    match word {
        "white" => Some(Colour::White),
        "black" => Some(Colour::Black),
        _ => None,
    }
}

/// Refuses a word that names no side.
pub fn refuse_side<O: Sink>(out: &mut O) -> End
    ensures { Said Words side_line result (sink_of O.Sink out.old) (sink_of O.Sink out.new) }
{
    say(Status::Words, b"words: side\n", out)
}
