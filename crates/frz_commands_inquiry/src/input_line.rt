//! The lines of an input, read byte by byte.
ghost use Rattle.std.specs.Prelude.{◌≤◌, length};
ghost use Rattle.frz_store.specs.Outside.{HasCause};
ghost use Rattle.frz_store.specs.Told.{source_of};
ghost use Rattle.frz_ways.specs.Hearing.{GaveByte};
ghost use Rattle.frz_commands_inquiry.specs.LinesTaken.{GaveLine};

use arrayvec::ArrayVec;
use frz_store::{Failed, Source};

/// The most bytes that a line of the input may have, without its line feed.
pub const MOST_LENGTH: usize = 128;

/// The bytes of a line, without its line feed.
pub type LineBytes = ArrayVec<u8, MOST_LENGTH>;

/// What stands next in an input.
#[derive(Clone, Copy)]
pub enum NextLine {
    /// No byte.
    Nothing,
    /// A line that ends with a line feed.
    Whole,
    /// A last line, which the end of the input ends.
    Last,
    /// More bytes than the `MOST_LENGTH` that a line may have.
    TooLong,
}

/// Takes the next byte. None at the end of the input.
fn read_byte<I: Source>(input: &mut I) -> Result<Option<u8>, Failed>
    ensures gave { GaveByte result (source_of I.Source input.old) (source_of I.Source input.new) }
    ensures cause { HasCause (I.faults input.old) (I.faults input.new) result }
{
    let mut byte = [0];
    if input.read(&mut byte)? == 0 {
        return Ok(None);
    }
    Ok(Some(byte[0]))
}

/// Takes the next line and its line feed from the input, and puts the line without it into `line`.
/// Nothing behind the line feed is taken. Of a line that is too long, `MOST_LENGTH` bytes and one
/// more are taken.
pub fn read_line<I: Source>(input: &mut I, line: &mut LineBytes) -> Result<NextLine, Failed>
    ensures gave { GaveLine result line.new.items (source_of I.Source input.old)
        (source_of I.Source input.new) }
    ensures short { length line.new.items ≤ MOST_LENGTH }
    ensures cause { HasCause (I.faults input.old) (I.faults input.new) result }
{
    line.clear();
    'bytes: loop {
        match read_byte(input)? {
            None => {
                return Ok(if line.is_empty() {
                    NextLine::Nothing
                } else {
                    NextLine::Last
                });
            }
            Some(b'\n') => return Ok(NextLine::Whole),
            Some(byte) => {
                if line.is_full() {
                    return Ok(NextLine::TooLong);
                }
                line.push(byte);
            }
        }
    }
}
