//! The lines that refuse a table file.
ghost use Rattle.std.specs.Prelude.{◌≡◌, ◌++◌, codes, decimal};
ghost use Rattle.frz_store.specs.Told.{sink_of};
ghost use Rattle.frz_answer.specs.Texts.{WroteText};
ghost use Rattle.frz_table.specs.declared.fault.TableFault.TheVariants.{Rules};
ghost use Rattle.frz_prelude.specs.FileWords.{file_word};
ghost use Rattle.frz_prelude.specs.TableCauses.{due_text, file_line, other_words};

use crate::causes::write_rules_fault;
use crate::file_word::FileWord;
use frz_answer::{Fault, write_numbered, write_numbered_line, write_piece};
use frz_rules::RulesFault;
use frz_store::{Failed, Sink};
use frz_table::{OtherFile, TableFault};

fn write_due<O: Sink>(due: u64, out: &mut O) -> Result<(), Failed>
    ensures { WroteText (due_text due) result (sink_of O.Sink out.old) (sink_of O.Sink out.new) }
{
    write_numbered_line(b" due ", due, out)
}

/// Writes that the file which this word stands for is missing.
fn write_missing<O: Sink>(word: FileWord, out: &mut O) -> Result<(), Failed>
    ensures { WroteText (codes "missing " ++ file_word word ++ codes "\n") result
        (sink_of O.Sink out.old) (sink_of O.Sink out.new) }
{
    write_piece(b"missing ", out)?;
    word.write(out)?;
    write_piece(b"\n", out)
}

/// Writes the word that stands for the file, and what is wrong with the file.
fn write_words<O: Sink>(word: FileWord, what: &[u8], out: &mut O) -> Result<(), Failed>
    ensures { WroteText (file_word word ++ what.now) result
        (sink_of O.Sink out.old) (sink_of O.Sink out.new) }
{
    word.write(out)?;
    write_piece(what, out)
}

/// What is written of a file that another program or another time made, behind the word for it.
fn words_of(other: OtherFile) -> &'static [u8]
    ensures { result.now ≡ other_words other }
{
    match other {
        OtherFile::Chained => b": chained, ask freezer chainquery\n",
        OtherFile::Former => b": former, ask freezer migrate\n",
        OtherFile::Older => b": older, build it again\n",
    }
}

/// Writes the word that stands for the file, what is wrong with the file, the number that is there,
/// and the number that is due.
fn write_numbers<O: Sink>(
    word: FileWord,
    what: &[u8],
    there: u64,
    due: u64,
    out: &mut O,
) -> Result<(), Failed>
    ensures { WroteText (file_word word ++ (what.now ++ decimal there) ++ due_text due) result
        (sink_of O.Sink out.old) (sink_of O.Sink out.new) }
{
    word.write(out)?;
    write_numbered(what, there, out)?;
    write_due(due, out)
}

fn write_text_fault<O: Sink>(word: FileWord, fault: RulesFault, out: &mut O) -> Result<(), Failed>
    ensures { WroteText (file_line (file_word word) (Rules fault)) result
        (sink_of O.Sink out.old) (sink_of O.Sink out.new) }
{
    word.write(out)?;
    write_piece(b": ", out)?;
    write_rules_fault(fault, out)
}

/// Writes the line that refuses the table file for which the word stands.
pub fn write_file_fault<O: Sink>(
    word: FileWord,
    fault: TableFault,
    out: &mut O,
) -> Result<(), Failed>
    ensures { WroteText (file_line (file_word word) fault) result
        (sink_of O.Sink out.old) (sink_of O.Sink out.new) }
{
    match fault {
        TableFault::Missing => write_missing(word, out),
        TableFault::Magic => write_words(word, b": magic\n", out),
        TableFault::Other(other) => write_words(word, words_of(other), out),
        TableFault::Truncated(length, due) => {
            write_numbers(word, b": truncated ", length, due, out)
        }
        TableFault::Extra(length, due) => write_numbers(word, b": extra ", length, due, out),
        TableFault::Rules(fault) => write_text_fault(word, fault, out),
        TableFault::Size(kept, due) => {
            write_numbers(word, b": size ", u64::from(kept), u64::from(due), out)
        }
        TableFault::Failed => write_piece(Fault::Store.line(), out),
        TableFault::NoMemory => write_piece(Fault::NoMemory.line(), out),
    }
}
