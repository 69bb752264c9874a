//! The real source and sink, over any reader and writer. They do not tell what is left or taken.
ghost use Rattle.std.specs.Prelude.{◌≡◌, ◌<◌, ◌≤◌, length, None, IfOk, OnOk};
ghost use Rattle.std.specs.Io.KnownBytes.{Appends, ReadConsumes};
ghost use Rattle.frz_store.specs.Outside.{HasCause};

use crate::count::Count;
use crate::{Failed, Sink, Source};
use std::io;
use std::io::{Read, Write};

/// A source over a reader, such as standard input.
#[derive(Drop)]
pub struct InputSource<R: Read + Drop> {
    reader: R,
    faults: Count,
}

impl<R: Read + Drop> InputSource<R> {
    /// A source over this reader, with no fault yet.
    pub fn new(reader: R) -> InputSource<R>
        ensures { result.faults ≡ 0 }
    {
        InputSource {
            reader,
            faults: Count::new(),
        }
    }
}

impl<R: Read + Drop> Source for InputSource<R> {
    ghost left = { λ _. None };

    ghost faults = { λ source. source.faults };

    fn read(&mut self, into: &mut [u8]) -> Result<usize, Failed>
        requires { 0 < length into.old }
        ensures count { IfOk result (λ n. n ≤ length into.new) }
        ensures given { ReadConsumes (R.remaining self.old.reader) (R.remaining self.new.reader)
            result into.new }
        ensures cause { HasCause self.old.faults self.new.faults result }
    {
        let count = self.reader.read(into);
        self.faults.or_fault(count, Failed)
    }
}

/// A sink over a writer, such as standard output.
#[derive(Drop)]
pub struct OutputSink<W: Write + Drop> {
    writer: W,
    faults: Count,
}

impl<W: Write + Drop> OutputSink<W> {
    /// A sink over this writer, with no fault yet.
    pub fn new(writer: W) -> OutputSink<W>
        ensures { result.faults ≡ 0 }
    {
        OutputSink {
            writer,
            faults: Count::new(),
        }
    }
}

/// Writes the whole piece and flushes the writer.
fn write_through<W: Write>(writer: &mut W, piece: &[u8]) -> io::Result<()>
    ensures { OnOk result (Appends (W.contents writer.old) (W.contents writer.new) piece.now) }
{
    writer.write_all(piece)?;
    writer.flush()
}

impl<W: Write + Drop> Sink for OutputSink<W> {
    ghost taken = { λ _. None };

    ghost faults = { λ sink. sink.faults };

    fn write(&mut self, piece: &[u8]) -> Result<(), Failed>
        ensures passed { OnOk result
            (Appends (W.contents self.old.writer) (W.contents self.new.writer) piece.now) }
        ensures cause { HasCause self.old.faults self.new.faults result }
    {
        let done = write_through(&mut self.writer, piece);
        self.faults.or_fault(done, Failed)
    }
}
