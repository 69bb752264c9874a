//! The store over real files. Its contracts do not say what the files hold.
ghost use Rattle.std.specs.Prelude.{◌≡◌, ◌≢◌, ◌↔◌, ◌-◌, ◌+◌, ◌≤◌, ◌^◌, min, length, Some, None, Ok, Err, IfOk, IfErr, IfSome, OnOk, IsTrue, is_err};
ghost use Rattle.std.specs.Fs.{IsDir, file_type, metadata_len};
ghost use Rattle.std.specs.Io.KnownBytes.{Consumes};
ghost use Rattle.std.specs.IoError.{error_kind};
ghost use Rattle.std.specs.declared.io.ErrorKind.TheVariants as kinds;
ghost use Rattle.frz_store.specs.Outside.{HasCause, IsNext, StoreCauses};
ghost use Rattle.frz_store.specs.Passing.{Passes, ReadsAt};

use crate::count::Count;
use crate::{Failed, Store, StoreFault};
use std::fs::{Files, Metadata, OpenFile};
use std::io::{Error, ErrorKind, Read, Seek, SeekFrom, Write};
use std::{fs, io};

/// A store of real files, which are named by their paths.
#[derive(Drop)]
pub struct DiskStore<R: Files + Drop> {
    rt: R,
    newest: Option<R::File>,
    faults: Count,
    asked: Count,
    calls: Count,
    room: u64,
}

impl<R: Files + Drop> DiskStore<R> {
    /// A store over the files of this runtime. All its counts are 0, and no file is created yet.
    pub fn new(rt: R) -> DiskStore<R>
        ensures faults { result.faults ≡ 0 }
        ensures asked { result.asked ≡ 0 }
        ensures calls { result.calls ≡ 0 }
        ensures room { result.room ≡ 0 }
    {
        DiskStore {
            rt,
            newest: None,
            faults: Count::new(),
            asked: Count::new(),
            calls: Count::new(),
            room: 0,
        }
    }
}

/// The opened file, or `None` if std did not find it. Every other error is passed on.
fn found<F: Drop>(opened: io::Result<F>) -> io::Result<Option<F>>
    ensures there { IfOk opened (λ file. result ≡ Ok (Some file)) }
    ensures missing { IfErr opened (λ e. error_kind e ≡ kinds.NotFound → result ≡ Ok None) }
    ensures failed { IfErr opened (λ e. error_kind e ≢ kinds.NotFound → result ≡ Err e) }
{
    match opened {
        Ok(file) => Ok(Some(file)),
        Err(e) if e.kind() == ErrorKind::NotFound => Ok(None),
        Err(e) => Err(e),
    }
}

/// The length of a file in bytes. A folder is an error.
fn length_of(about: &Metadata) -> io::Result<u64>
    ensures length { IfOk result (λ n. n ≡ metadata_len about.now) }
    ensures folder { IsTrue (is_err result) ↔ IsDir (file_type about.now) }
{
    if about.is_dir() {
        return Err(Error::from(ErrorKind::IsADirectory));
    }
    Ok(about.len())
}

/// The length of a file in bytes, or `None` if there is no such file.
fn size_of<R: Files>(rt: &R, name: &str) -> io::Result<Option<u64>> {
    let Some(file) = found(fs::open(rt, name))? else {
        return Ok(None);
    };
    let about = file.metadata()?;
    Ok(Some(length_of(&about)?))
}

/// Moves the position of a file to byte `at`.
fn send<F: Seek>(file: &mut F, at: u64) -> io::Result<()>
    ensures { OnOk result (IfSome (F.stream_position file.old)
        (λ _. F.stream_position file.new ≡ Some at)) }
{
    file.seek(SeekFrom::Start(at))?;
    Ok(())
}

/// Fills the slice with the bytes of the file from byte `at` on.
fn read_from<F: Read + Seek>(file: &mut F, at: u64, into: &mut [u8]) -> io::Result<()>
    ensures { OnOk result (ReadsAt F.stream_position F.remaining at into.new file.old) }
{
    send(file, at)?;
    file.read_exact(into)
}

fn read_at<R: Files>(rt: &R, name: &str, at: u64, into: &mut [u8]) -> io::Result<()>
    ensures { OnOk result ((opened : R.File)
        × ReadsAt R.File.stream_position R.File.remaining at into.new opened) }
{
    let mut file = fs::open(rt, name)?;
    read_from(&mut file, at, into)
}

fn write_to<W: Write>(newest: &mut Option<W>, piece: &[u8]) -> io::Result<()>
    ensures { OnOk result (Passes W.contents newest.old newest.new piece.now) }
{
    match newest {
        Some(file) => file.write_all(piece),
        None if piece.is_empty() => Ok(()),
        None => Err(Error::from(ErrorKind::NotFound)),
    }
}

impl<R: Files + Drop> Store for DiskStore<R> {
    ghost files = { λ _. None };

    ghost last = { λ _. None };

    ghost faults = { λ store. store.faults };

    ghost wants = { λ _. 0 };

    ghost asked = { λ store. store.asked };

    ghost calls = { λ store. store.calls };

    ghost room = { λ store. store.room };

    ghost holds_bytes = { λ _. tt };

    fn size(&mut self, name: &str) -> Result<Option<u64>, StoreFault> {
        self.calls.add(1);
        let size = size_of(&self.rt, name);
        self.faults.or_fault(size, StoreFault::Failed)
    }

    fn read(&mut self, name: &str, at: u64, into: &mut [u8]) -> Result<(), StoreFault>
        ensures placed { OnOk result ((opened : R.File)
            × ReadsAt R.File.stream_position R.File.remaining at into.new opened) }
        ensures room { self.new.room ≡ self.old.room }
        ensures asked { self.new.asked ≡ min (self.old.asked + length into.old) (2 ^ 64 - 1) }
        ensures asked_grows { self.old.asked ≤ self.new.asked }
        ensures calls { IsNext self.old.calls self.new.calls }
        ensures causes { StoreCauses self.old.faults self.new.faults 0 0 result }
    {
        self.calls.add(1);
        self.asked.add(into.len() as u64);
        let done = read_at(&self.rt, name, at, into);
        self.faults.or_fault(done, StoreFault::Failed)
    }

    fn create(&mut self, name: &str, due: u64) -> Result<(), StoreFault> {
        self.calls.add(1);
        self.room = 0;
        let created = fs::create(&self.rt, name);
        let file = self.faults.or_fault(created, StoreFault::Failed)?;
        self.newest = Some(file);
        self.room = due;
        Ok(())
    }

    fn append(&mut self, piece: &[u8]) -> Result<(), Failed>
        requires { length piece.now ≤ self.old.room }
        ensures passed { OnOk result
            (Passes R.File.contents self.old.newest self.new.newest piece.now) }
        ensures room { self.new.room ≡ self.old.room - length piece.now }
        ensures asked { self.new.asked ≡ self.old.asked }
        ensures calls { IsNext self.old.calls self.new.calls }
        ensures cause { HasCause self.old.faults self.new.faults result }
    {
        self.calls.add(1);
        self.room -= piece.len() as u64;
        let done = write_to(&mut self.newest, piece);
        self.faults.or_fault(done, Failed)
    }
}
