//! The lines of the input, each of which is answered before the next is read.
ghost use Rattle.std.specs.Prelude.{◌≡◌, ◌<◌, ◌≤◌, length, map, true, false};
ghost use Rattle.frz_store.specs.Outside.{HasCause};
ghost use Rattle.frz_store.specs.Told.{source_of, sink_of};
ghost use Rattle.frz_ways.specs.Hearing.{HasEnded};
ghost use Rattle.frz_atlas.specs.FileOn.{loaded_back};
ghost use Rattle.frz_atlas.specs.Loaded.{link_loaded};
ghost use Rattle.frz_atlas_prelude.specs.declared.names.TheConstants.{MOST_BACKS};
ghost use Rattle.frz_commands_inquiry.specs.Ending.{EndsInquiry, RunsInquiry};
ghost use Rattle.frz_commands_inquiry.specs.Inquired.{Inquired, InputCause};
ghost use Rattle.frz_commands_inquiry.specs.Inquiries.{halt_line, halt_status};
ghost use Rattle.frz_commands_inquiry.specs.LinesTaken.{TakesLine, after_line, no_line};
ghost use Rattle.frz_commands_inquiry.specs.Places.{reply_to};

use crate::input_line::{LineBytes, NextLine, read_line};
use crate::places::write_reply;
use frz_answer::{End, Fault, Status, say};
use frz_atlas::BackTable;
use frz_store::{Failed, Sink, Source};

/// The most lines of the input that are answered.
pub const MOST_LINES: u32 = 1_000_000;

/// Why no more lines are answered.
#[derive(Clone, Copy, PartialEq, Eq, Drop)]
pub enum Halt {
    InputEnded,
    /// [`MOST_LINES`] lines were answered.
    Lines,
    /// A line has more bytes than a line may have.
    LineLength,
}

impl Halt {
    /// The line that ends the text, with its line feed.
    fn line(self) -> &'static [u8]
        ensures { result.now ≡ halt_line self }
    {
        match self {
            Halt::InputEnded => b"input ended\n",
            Halt::Lines => b"limit lines\n",
            Halt::LineLength => b"limit line length\n",
        }
    }

    fn status(self) -> Status
        ensures { result ≡ halt_status self }
    {
        match self {
            Halt::InputEnded => Status::Success,
            Halt::Lines | Halt::LineLength => Status::Limit,
        }
    }
}

/// What failed.
#[derive(Clone, Copy, PartialEq, Eq, Drop)]
pub enum Broken {
    Input,
    Output,
}

/// How far the input was read: how many lines may still be read, and whether its end was seen. Once
/// the end was seen, no byte is asked for.
#[derive(Clone, Copy)]
pub struct Reader {
    pub more: u32,
    pub ended: bool,
}

impl Reader {
    /// A reader that has read nothing yet.
    fn new() -> Reader
        ensures more { result.more ≡ MOST_LINES }
        ensures ended { result.ended ≡ false }
    {
        Reader {
            more: MOST_LINES,
            ended: false,
        }
    }

    /// Counts what was read as a line, or tells why there was no line to count.
    fn count(&mut self, next: NextLine) -> Option<Halt>
        requires some { 0 < self.old.more }
        ensures reader { self.new ≡ after_line self.old next }
        ensures why { result ≡ no_line next }
    {
        match next {
            NextLine::Nothing => {
                self.ended = true;
                Some(Halt::InputEnded)
            }
            NextLine::TooLong => Some(Halt::LineLength),
            NextLine::Whole => {
                self.more -= 1;
                None
            }
            NextLine::Last => {
                self.more -= 1;
                self.ended = true;
                None
            }
        }
    }

    /// Takes the next line, or tells why there is none. The limit of lines is checked first, then
    /// the end of the input, then the length of the line.
    #[tactic(auto, using(crate::proofs::LineTaken::limit_reached, crate::proofs::LineTaken::end_seen_before, crate::proofs::LineTaken::input_failed, crate::proofs::LineTaken::line_taken))]
    fn next_line<I: Source>(
        &mut self,
        input: &mut I,
        line: &mut LineBytes,
    ) -> Result<Option<Halt>, Failed>
        requires ended { self.old.ended ≡ true → HasEnded (source_of I.Source input.old) }
        ensures taken { TakesLine self.old self.new result line.new.items
            (source_of I.Source input.old) (source_of I.Source input.new) }
        ensures cause { HasCause (I.faults input.old) (I.faults input.new) result }
    {
        if self.more == 0 {
            return Ok(Some(Halt::Lines));
        }
        if self.ended {
            return Ok(Some(Halt::InputEnded));
        }
        let next = read_line(input, line)?;
        Ok(self.count(next))
    }
}

/// Answers the lines of the input by these tables, each before the next is read.
fn answer_lines<I: Source, O: Sink>(
    own: &BackTable,
    backs: &[BackTable],
    input: &mut I,
    out: &mut O,
) -> Result<Halt, Broken>
    requires few { length backs.now ≤ MOST_BACKS }
    ensures inquired { Inquired (reply_to (link_loaded own.now) (map loaded_back backs.now)) result
        (source_of I.Source input.old) (source_of I.Source input.new)
        (sink_of O.Sink out.old) (sink_of O.Sink out.new) }
    ensures cause { InputCause result (source_of I.Source input.old)
        (source_of I.Source input.new) }
{
    let mut reader = Reader::new();
    let mut line = LineBytes::new();
    'lines: loop {
        let Ok(next) = reader.next_line(input, &mut line) else {
            return Err(Broken::Input);
        };
        if let Some(halt) = next {
            return Ok(halt);
        }
        let Ok(()) = write_reply(own, backs, line.as_slice(), out) else {
            return Err(Broken::Output);
        };
    }
}

/// Ends the command once no more lines are answered.
fn end_by<O: Sink>(answered: Result<Halt, Broken>, out: &mut O) -> End
    ensures { EndsInquiry answered result (sink_of O.Sink out.old) (sink_of O.Sink out.new) }
{
    match answered {
        Ok(halt) => say(halt.status(), halt.line(), out),
        Err(Broken::Input) => End::Stopped(Fault::Input),
        Err(Broken::Output) => End::SinkFault,
    }
}

/// Answers the lines of the input by these tables, and ends the command.
pub fn inquire<I: Source, O: Sink>(
    own: &BackTable,
    backs: &[BackTable],
    input: &mut I,
    out: &mut O,
) -> End
    requires few { length backs.now ≤ MOST_BACKS }
    ensures { RunsInquiry (reply_to (link_loaded own.now) (map loaded_back backs.now)) result
        (source_of I.Source input.old) (source_of I.Source input.new)
        (sink_of O.Sink out.old) (sink_of O.Sink out.new) }
{
    let answered = answer_lines(own, backs, input, out);
    end_by(answered, out)
}
