//! Each object on its happy path and with its calls failing in turn, and each real adapter once.
use crate::expect::{expect_equal, expect_holds};
use frz_store::{
    DiskStore, Fail, FailOn, Failed, InputSource, MemSink, MemSource, MemStore, OutputSink, Sink,
    Source, Store, StoreFault, SureSink, SureSource, SureStore,
};
use std::alloc::Global;
use std::io::{Error, ErrorKind, Read, Write};
use std::process::Abort;
use std::test::Fail as TestFail;
use std::{fs, io};
use test_tables::no_fails;

/// Whether the store gives exactly these bytes, of which there are at most 8, for the name.
fn holds<S: Store>(store: &mut S, name: &str, want: &[u8]) -> Result<bool, StoreFault> {
    let mut bytes = [0; 8];
    let Some(size) = store.size(name)? else {
        return Ok(false);
    };
    if size != want.len() as u64 || want.len() > 8 {
        return Ok(false);
    }
    let front = &mut bytes[..want.len()];
    store.read(name, 0, front)?;
    Ok(&*front == want)
}

/// Makes `made` hold four bytes in two pieces, and reads them back: five calls of the store.
fn write_and_read<S: Store>(store: &mut S) -> Result<bool, StoreFault> {
    store.create("made", 4)?;
    if store.append(b"ab").is_err() || store.append(b"cd").is_err() {
        return Err(StoreFault::Failed);
    }
    holds(store, "made", b"abcd")
}

fn one_fail(alloc: Global, fail: Fail) -> Result<Vec<Fail>, TestFail> {
    Ok(vec![in alloc; fail]?)
}

/// The second call fails, and a write that fails keeps so many bytes.
fn second_call(keep: u64) -> Fail {
    Fail {
        on: FailOn::Call,
        nth: 2,
        keep,
    }
}

fn told_store(
    alloc: Global,
    fails: Vec<Fail>,
    name: &str,
    bytes: &[u8],
) -> Result<MemStore, TestFail> {
    let mut store = MemStore::new(alloc, fails);
    store.put(name, bytes).or(Err("put"))?;
    Ok(store)
}

fn sure_store(alloc: Global) -> Result<SureStore, TestFail> {
    let mut store = SureStore::new(alloc);
    store.put("made", b"old").or(Err("put"))?;
    Ok(store)
}

/// The store takes four bytes and gives them back.
fn expect_kept<S: Store>(rt: &impl Abort, store: &mut S) {
    assert!(rt; write_and_read(store) == Ok(true));
}

fn expect_bytes(rt: &impl Abort, held: Option<&[u8]>, want: Option<&[u8]>) {
    expect_equal(rt, &held, &want, "bytes");
}

#[test]
fn stores_give_back_what_was_written(rt: HostRuntime) -> Result<(), TestFail> {
    let alloc = rt.alloc();
    let mut told = told_store(alloc, no_fails(alloc), "other", b"xyz")?;
    let mut sure = sure_store(alloc)?;
    expect_kept(&rt, &mut told);
    expect_bytes(&rt, told.file("other"), Some(b"xyz"));
    expect_bytes(&rt, told.file("absent"), None);
    expect_kept(&rt, &mut sure);
    expect_bytes(&rt, sure.file("made"), Some(b"abcd"));
    expect_equal(&rt, &[told.asked(), sure.asked()], &[4, 4], "asked");
    Ok(())
}

/// A call to fail while `made` is written over `old` and read back, and what `made` holds then.
#[derive(Drop)]
struct Failing<'a>(FailOn, u64, &'a [u8]);

const FAILING: &[Failing] = &[
    Failing(FailOn::Call, 1, b"old"),
    Failing(FailOn::Create, 1, b"old"),
    Failing(FailOn::Call, 2, b"a"),
    Failing(FailOn::Append, 2, b"abc"),
    Failing(FailOn::Call, 4, b"abcd"),
    Failing(FailOn::Size, 1, b"abcd"),
    Failing(FailOn::Call, 5, b"abcd"),
    Failing(FailOn::Read, 1, b"abcd"),
];

fn failing_store(alloc: Global, row: &Failing<'_>) -> Result<MemStore, TestFail> {
    let Failing(on, nth, _) = *row;
    let fails = one_fail(alloc, Fail { on, nth, keep: 1 })?;
    told_store(alloc, fails, "made", b"old")
}

fn expect_failed(rt: &impl Abort, store: &mut MemStore, row: &Failing<'_>) {
    let Failing(on, nth, want) = *row;
    let answer = write_and_read(store);
    expect_holds(rt, answer == Err(StoreFault::Failed), &(on, nth));
    expect_holds(rt, store.file("made") == Some(want), &(on, nth));
}

#[test]
fn each_call_of_a_store_fails_in_turn(rt: HostRuntime) -> Result<(), TestFail> {
    for row in FAILING {
        expect_failed(&rt, &mut failing_store(rt.alloc(), row)?, row);
    }
    Ok(())
}

/// The bytes that one read gives, of which there are at most three.
fn read_three<'a, S: Source>(source: &mut S, into: &'a mut [u8; 3]) -> Result<&'a [u8], Failed> {
    let count = source.read(into)?;
    Ok(&into[..count])
}

fn expect_reads<S: Source>(rt: &impl Abort, source: &mut S, wants: &[Result<&[u8], Failed>]) {
    for want in wants {
        expect_holds(rt, read_three(source, &mut [0; 3]) == *want, want);
    }
}

const READS_AT_FIRST: &[Result<&[u8], Failed>] = &[Ok(b"abc"), Err(Failed)];

const READS_THEN: &[Result<&[u8], Failed>] = &[Ok(b"de"), Ok(b"")];

#[test]
fn sources_give_their_bytes(rt: HostRuntime) -> Result<(), TestFail> {
    let alloc = rt.alloc();
    let fails = one_fail(alloc, second_call(0))?;
    let mut told = MemSource::new(b"abcde".to_vec(alloc)?, fails);
    let mut sure = SureSource::new(b"xy".to_vec(alloc)?);
    expect_reads(&rt, &mut told, READS_AT_FIRST);
    expect_bytes(&rt, Some(told.left()), Some(b"de"));
    expect_reads(&rt, &mut told, READS_THEN);
    expect_reads(&rt, &mut sure, &[Ok(b"xy")]);
    expect_bytes(&rt, Some(sure.left()), Some(b""));
    Ok(())
}

/// A piece for a sink, and what the sink answers.
#[derive(Drop)]
struct Piece<'a>(&'a [u8], Result<(), Failed>);

fn expect_writes<S: Sink>(rt: &impl Abort, sink: &mut S, pieces: &[Piece<'_>]) {
    for Piece(piece, want) in pieces {
        expect_holds(rt, sink.write(piece) == *want, piece);
    }
}

const PAST_THE_ROOM: &[Piece] = &[
    Piece(b"ab", Ok(())),
    Piece(b"cd", Err(Failed)),
    Piece(b"efg", Err(Failed)),
];

const ONE_PIECE: &[Piece] = &[Piece(b"ab", Ok(()))];

#[test]
fn sinks_take_what_fits(rt: HostRuntime) -> Result<(), TestFail> {
    let alloc = rt.alloc();
    let fails = one_fail(alloc, second_call(1))?;
    let mut told = MemSink::new(alloc, 5, fails).or(Err("sink"))?;
    expect_writes(&rt, &mut told, PAST_THE_ROOM);
    expect_bytes(&rt, Some(told.taken()), Some(b"abcef"));
    expect_writes(&rt, &mut SureSink::new(), ONE_PIECE);
    Ok(())
}

/// Whether the real file holds this text. It is removed.
fn held(rt: &HostRuntime, name: &str, want: &str) -> Result<bool, TestFail> {
    let text = fs::read_to_string(rt, name)?;
    fs::remove_file(rt, name)?;
    Ok(text.as_str() == want)
}

/// What a store says of the size of a name.
#[derive(Drop)]
struct Size<'a>(&'a str, Result<Option<u64>, StoreFault>);

const SIZES: &[Size] = &[
    Size("absent", Ok(None)),
    Size("absent/made", Ok(None)),
    Size("", Ok(None)),
    Size(".", Err(StoreFault::Failed)),
    Size("made/inside", Err(StoreFault::Failed)),
    Size("ma\0de", Err(StoreFault::Failed)),
];

const NO_FILES: &[&str] = &[".", "made/inside", "ma\0de"];

fn expect_sizes<S: Store>(rt: &impl Abort, store: &mut S, sizes: &[Size<'_>]) {
    for Size(name, want) in sizes {
        expect_holds(rt, store.size(name) == *want, name);
    }
}

fn expect_not_created<S: Store>(rt: &impl Abort, store: &mut S) {
    for name in NO_FILES {
        expect_holds(rt, store.create(name, 1) == Err(StoreFault::Failed), name);
    }
}

fn read_disk(
    store: &mut DiskStore<HostRuntime>,
    name: &str,
    at: u64,
    into: &mut [u8],
) -> Result<(), StoreFault> {
    store.read(name, at, into)
}

/// The file `made` ends before the end of these reads.
fn expect_past_the_end(rt: &impl Abort, store: &mut DiskStore<HostRuntime>) {
    let near = read_disk(store, "made", 3, &mut [0; 2]);
    let far = read_disk(store, "made", u64::MAX, &mut [0; 1]);
    assert!(rt; near == Err(StoreFault::Failed));
    assert!(rt; far == Err(StoreFault::Failed));
}

/// All of `the_disk_keeps_files` that needs no look at the real file.
fn expect_disk(rt: &impl Abort, store: &mut DiskStore<HostRuntime>) {
    expect_kept(rt, store);
    expect_past_the_end(rt, store);
    expect_sizes(rt, store, SIZES);
    expect_not_created(rt, store);
}

#[test]
fn the_disk_keeps_files(rt: HostRuntime) -> Result<(), TestFail> {
    expect_disk(&rt, &mut DiskStore::new(rt.clone()?));
    assert!(rt; held(&rt, "made", "abcd")?);
    Ok(())
}

const KEPT: &[Size] = &[Size("kept", Ok(Some(6)))];

/// The file `kept` holds six bytes, of which three are read from the middle.
fn expect_middle(rt: &impl Abort, store: &mut DiskStore<HostRuntime>) {
    expect_sizes(rt, store, KEPT);
    let mut into = [0; 3];
    assert!(rt; read_disk(store, "kept", 2, &mut into) == Ok(()));
    expect_bytes(rt, Some(&into), Some(b"cde"));
}

#[test]
fn the_disk_reads_at_a_place_and_leaves_the_file(rt: HostRuntime) -> Result<(), TestFail> {
    fs::write(&rt, "kept", b"abcdef")?;
    expect_middle(&rt, &mut DiskStore::new(rt.clone()?));
    assert!(rt; held(&rt, "kept", "abcdef")?);
    Ok(())
}

/// Gives at most two bytes a read, but fails at the second.
#[derive(Drop)]
struct FaultyReader {
    reads: usize,
}

impl Read for FaultyReader {
    fn read(&mut self, buf: &mut [u8]) -> io::Result<usize> {
        self.reads = self.reads.saturating_add(1);
        if self.reads == 2 {
            return Err(Error::from(ErrorKind::Other));
        }
        if let Some(first) = buf.first_mut() {
            *first = b'x';
        }
        Ok(buf.len().min(2))
    }
}

#[test]
fn the_input_gives_bytes_and_faults(rt: HostRuntime) -> Result<(), TestFail> {
    let mut source = InputSource::new(FaultyReader { reads: 0 });
    let mut into = [0; 4];
    assert!(rt; source.read(&mut into) == Ok(2));
    assert!(rt; into == *b"x\0\0\0");
    expect_reads(&rt, &mut source, &[Err(Failed), Ok(b"x\0")]);
    Ok(())
}

/// Takes two bytes at a time, up to four bytes, and then none.
#[derive(Drop)]
struct NarrowWriter {
    taken: usize,
}

impl Write for NarrowWriter {
    fn write(&mut self, buf: &[u8]) -> io::Result<usize> {
        let count = buf.len().min(2).min(4usize.saturating_sub(self.taken));
        self.taken = self.taken.saturating_add(count);
        Ok(count)
    }

    fn flush(&mut self) -> io::Result<()> {
        Ok(())
    }
}

const NARROW: &[Piece] = &[
    Piece(b"abc", Ok(())),
    Piece(b"", Ok(())),
    Piece(b"de", Err(Failed)),
];

const LINE: &[Piece] = &[Piece(b"ab", Ok(())), Piece(b"c\n", Ok(()))];

const WHOLE_LINE: &[Piece] = &[Piece(b"a line\n", Ok(()))];

#[test]
fn the_output_takes_whole_pieces(rt: HostRuntime) -> Result<(), TestFail> {
    let mut narrow = OutputSink::new(NarrowWriter { taken: 0 });
    expect_writes(&rt, &mut narrow, NARROW);
    expect_writes(&rt, &mut OutputSink::new(fs::create(&rt, "taken")?), LINE);
    assert!(rt; held(&rt, "taken", "abc\n")?);
    expect_writes(&rt, &mut OutputSink::new(rt.stdout()), WHOLE_LINE);
    Ok(())
}
