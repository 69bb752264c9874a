//! The line that refuses one of the tables behind another; it names the table by its place.
ghost use Rattle.std.specs.Prelude.{◌<◌, ◌++◌, codes};
ghost use Rattle.frz_store.specs.Told.{sink_of};
ghost use Rattle.frz_answer.specs.Texts.{WroteText};
ghost use Rattle.frz_prelude.specs.FileWords.{file_word};
ghost use Rattle.frz_prelude.specs.WrongLines.{wrong_line};
ghost use Rattle.frz_atlas_prelude.specs.declared.names.TheConstants.{MOST_BACKS};
ghost use Rattle.frz_atlas_prelude.specs.BackLines.{back_line};

use frz_answer::write_piece;
use frz_atlas::BackFault;
use frz_game::Wrong;
use frz_prelude::{FileWord, write_file_fault, write_wrong};
use frz_store::{Failed, Sink};

/// Writes the line that tells a wrong entry of the table for which the word stands.
fn write_wrong_entry<O: Sink>(word: FileWord, wrong: Wrong, out: &mut O) -> Result<(), Failed>
    ensures { WroteText (file_word word ++ codes ": " ++ wrong_line wrong) result
        (sink_of O.Sink out.old) (sink_of O.Sink out.new) }
{
    word.write(out)?;
    write_piece(b": ", out)?;
    write_wrong(wrong, out)
}

/// Writes the line that refuses the table at this place; places are counted from 0.
pub fn write_back<O: Sink>(place: usize, fault: BackFault, out: &mut O) -> Result<(), Failed>
    requires { place < MOST_BACKS }
    ensures { WroteText (back_line place fault) result
        (sink_of O.Sink out.old) (sink_of O.Sink out.new) }
{
    let word = FileWord::BackAt(place as u64 + 1);
    match fault {
        BackFault::Refused(fault) => write_file_fault(word, fault, out),
        BackFault::Wrong(wrong) => write_wrong_entry(word, wrong, out),
    }
}
