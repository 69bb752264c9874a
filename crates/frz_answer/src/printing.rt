//! Texts that are written piece by piece: the first write that fails ends the text.
ghost use Rattle.std.specs.Prelude.{◌++◌, codes, decimal};
ghost use Rattle.frz_store.specs.Told.{sink_of};
ghost use Rattle.frz_answer.specs.Texts.{WroteText};

use frz_store::{Failed, Sink};
use itoa::Buffer;

/// Writes a piece of a text.
pub fn write_piece<O: Sink>(piece: &[u8], out: &mut O) -> Result<(), Failed>
    ensures { WroteText piece.now result (sink_of O.Sink out.old) (sink_of O.Sink out.new) }
{
    out.write(piece)
}

/// Writes a number in decimal digits.
pub fn write_number<O: Sink>(number: u64, out: &mut O) -> Result<(), Failed>
    ensures { WroteText (decimal number) result (sink_of O.Sink out.old) (sink_of O.Sink out.new) }
{
    write_piece(Buffer::new().format(number).as_bytes(), out)
}

/// Writes a text and a line feed behind it.
pub fn write_line<O: Sink>(text: &[u8], out: &mut O) -> Result<(), Failed>
    ensures { WroteText (text.now ++ codes "\n") result
        (sink_of O.Sink out.old) (sink_of O.Sink out.new) }
{
    write_piece(text, out)?;
    write_piece(b"\n", out)
}

/// Writes a word, and a number in decimal digits behind it. No blank is put between them.
pub fn write_numbered<O: Sink>(word: &[u8], number: u64, out: &mut O) -> Result<(), Failed>
    ensures { WroteText (word.now ++ decimal number) result
        (sink_of O.Sink out.old) (sink_of O.Sink out.new) }
{
    write_piece(word, out)?;
    write_number(number, out)
}

/// Writes a word, a number as [`write_numbered`] does, and a line feed.
pub fn write_numbered_line<O: Sink>(word: &[u8], number: u64, out: &mut O) -> Result<(), Failed>
    ensures { WroteText (word.now ++ decimal number ++ codes "\n") result
        (sink_of O.Sink out.old) (sink_of O.Sink out.new) }
{
    write_numbered(word, number, out)?;
    write_piece(b"\n", out)
}
