//! The reply of the opponent: the first line of the input that says a legal move.
ghost use Rattle.std.specs.Prelude.{◌≡◌, ◌<◌, codes, length, true, false, IfOk};
ghost use Rattle.frz_store.specs.Outside.{HasCause};
ghost use Rattle.frz_store.specs.Told.{source_of, sink_of};
ghost use Rattle.frz_answer.specs.Texts.{WroteText};
ghost use Rattle.frz_ways.specs.Hearing.{HasEnded, HearsLine, Hears, IsThere, after_line, no_line};
ghost use Rattle.frz_ways.specs.SessionFaults.{InputCause};
ghost use Rattle.frz_ways.specs.declared.session_end.TheConstants.{MOST_LINES};

use crate::input_line::{LineBytes, NextLine, read_line};
use crate::naming::place_of;
use crate::session_end::{MOST_LINES, PlayFault, PlayLimit};
use frz_answer::write_piece;
use frz_graph::NextList;
use frz_store::{Failed, Sink, Source};

/// Why an input gives no reply.
#[derive(Clone, Copy, PartialEq, Eq, Drop)]
pub enum Why {
    Ended,
    Limit(PlayLimit),
}

/// What an input gives where the opponent is to move.
#[derive(Clone, Copy)]
pub enum Heard {
    /// A move, by its place in the list of moves.
    Reply(usize),
    Stop(Why),
}

/// How far an input was read: how many lines may still be read, and whether its end was seen. Once
/// the end was seen, no byte is asked for.
#[derive(Clone, Copy)]
pub struct Reader {
    pub more: u32,
    pub ended: bool,
}

impl Reader {
    /// A reader that has read nothing yet.
    pub fn new() -> Reader
        ensures more { result.more ≡ MOST_LINES }
        ensures ended { result.ended ≡ false }
    {
        Reader {
            more: MOST_LINES,
            ended: false,
        }
    }
}

fn write_refused<O: Sink>(out: &mut O) -> Result<(), Failed>
    ensures { WroteText (codes "illegal\n") result
        (sink_of O.Sink out.old) (sink_of O.Sink out.new) }
{
    write_piece(b"illegal\n", out)
}

/// Counts what was read as a line, or tells why there was no line to count.
fn counted(next: NextLine, reader: &mut Reader) -> Option<Why>
    requires some { 0 < reader.old.more }
    ensures reader { reader.new ≡ after_line reader.old next }
    ensures why { result ≡ no_line next }
{
    match next {
        NextLine::Nothing => {
            reader.ended = true;
            Some(Why::Ended)
        }
        NextLine::TooLong => Some(Why::Limit(PlayLimit::LineLength)),
        NextLine::Whole => {
            reader.more -= 1;
            None
        }
        NextLine::Last => {
            reader.more -= 1;
            reader.ended = true;
            None
        }
    }
}

/// Takes the next line, or tells why there is none. The limit of lines is checked first, then the
/// end of the input, then the length of the line.
#[tactic(auto, using(crate::proofs::LinesHeard::end_seen_before, crate::proofs::LinesHeard::input_failed, crate::proofs::LinesHeard::line_heard))]
fn next_line<I: Source>(
    reader: &mut Reader,
    input: &mut I,
    line: &mut LineBytes,
) -> Result<Option<Why>, Failed>
    requires ended { reader.old.ended ≡ true → HasEnded (source_of I.Source input.old) }
    ensures heard { HearsLine reader.old reader.new result line.new.items
        (source_of I.Source input.old) (source_of I.Source input.new) }
    ensures cause { HasCause (I.faults input.old) (I.faults input.new) result }
{
    if reader.more == 0 {
        return Ok(Some(Why::Limit(PlayLimit::Lines)));
    }
    if reader.ended {
        return Ok(Some(Why::Ended));
    }
    let next = read_line(input, line)?;
    Ok(counted(next, reader))
}

/// Reads lines until one says a move of the list. For each other line it writes `illegal`.
pub fn hear<I: Source, O: Sink>(
    list: &NextList,
    reader: &mut Reader,
    input: &mut I,
    out: &mut O,
) -> Result<Heard, PlayFault>
    requires ended { reader.old.ended ≡ true → HasEnded (source_of I.Source input.old) }
    ensures heard { Hears list.now.items reader.old reader.new result
        (source_of I.Source input.old) (source_of I.Source input.new)
        (sink_of O.Sink out.old) (sink_of O.Sink out.new) }
    ensures there { IfOk result (IsThere (length list.now.items)) }
    ensures cause { InputCause result (source_of I.Source input.old)
        (source_of I.Source input.new) }
{
    let mut line = LineBytes::new();
    'lines: loop {
        let Ok(next) = next_line(reader, input, &mut line) else {
            return Err(PlayFault::Input);
        };
        if let Some(why) = next {
            return Ok(Heard::Stop(why));
        }
        if let Some(place) = place_of(line.as_slice(), list) {
            return Ok(Heard::Reply(place));
        }
        write_refused(out)?;
    }
}
