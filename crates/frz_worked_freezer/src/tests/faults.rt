//! Each command with the kth call of its store or of its input refused, and over a sink with room
//! for k bytes, for k from the first until it ends well.
use super::migrating::former_rooks;
use super::{CORNER, MATE_IN_ONE, RULES, call_with_input, expect_ended, expect_equal, rook_file};
use frz_store::{Fail, MemSink, MemSource, MemStore};
use std::alloc::Global;
use std::process::Abort;
use std::test::Fail as TestFail;
use test_tables::{call_fails, empty_sink, no_fails, store_with};

/// The words of a call, what it answers where nothing fails, and the name that it writes.
struct Asked<'a>(&'a [&'a str], &'a str, Option<&'a str>);

const ASKED: &[Asked] = &[
    Asked(&["build", "A", "T"], "built 8\n", Some("T")),
    Asked(&["check", "A.t"], "exact 8\n", None),
    Asked(
        &["query", "A.t", MATE_IN_ONE],
        "white wins within 1\nblack none\n",
        None,
    ),
    Asked(
        &["solve", "A", MATE_IN_ONE],
        "white wins within 1\nblack none\n",
        None,
    ),
    Asked(
        &["line", "A.t", CORNER, "white"],
        "white wins within 2\na8b8\nh1h8\nmate\n",
        None,
    ),
    PLAYED,
    Asked(
        &["report", "A.t"],
        "exits 38 KRk\nsqueezes 0 unassigned 38\n",
        None,
    ),
    Asked(&["migrate", "O.t", "T"], "migrated 16\n", Some("T")),
];

const PLAYED: Asked = Asked(
    &["play", "A.t", CORNER, "white"],
    "white wins within 2\nillegal\nreply a8b8\nmove h1h8\nmate\n",
    None,
);

/// What `play` hears.
const INPUT: &[u8] = b"a8a7\na8b8\n";

/// No command of these calls the store so often.
const MOST_CALLS: u64 = 40;

/// Room for every text of these commands.
const ROOM: usize = 400;

/// A store with the files that the commands ask for.
fn filled(alloc: Global, fails: Vec<Fail>) -> Result<MemStore, TestFail> {
    let rook = rook_file(alloc)?;
    let former = former_rooks(alloc)?;
    let files = [
        ("A", RULES),
        ("A.t", rook.as_slice()),
        ("O.t", former.as_slice()),
    ];
    store_with(alloc, fails, &files)
}

/// What the program is called over.
#[derive(Drop)]
struct Objects {
    store: MemStore,
    input: MemSource,
    out: MemSink,
}

/// A store and an input whose calls fail so, and a sink with so much room.
fn failing_objects(
    alloc: Global,
    store: Vec<Fail>,
    input: Vec<Fail>,
    room: usize,
) -> Result<Objects, TestFail> {
    Ok(Objects {
        input: MemSource::new(INPUT.to_vec(alloc)?, input),
        store: filled(alloc, store)?,
        out: empty_sink(alloc, room)?,
    })
}

/// Calls the program with these words over the objects.
fn call_over(alloc: Global, words: &[&str], objects: &mut Objects) -> Result<u8, TestFail> {
    let Objects { store, input, out } = objects;
    call_with_input(alloc, words, store, input, out)
}

/// The text is whole lines that begin the answer, and then the fault's.
fn names_fault(text: &[u8], whole: &str, line: &[u8]) -> bool {
    match text.strip_suffix(line) {
        Some(front) => {
            whole.as_bytes().starts_with(front) && (front.is_empty() || front.ends_with(b"\n"))
        }
        None => false,
    }
}

/// Both stores hold the same under the name.
fn same_file(left: &MemStore, whole: &MemStore, name: &str) -> bool {
    left.file(name) == whole.file(name)
}

/// The store holds nothing under the name, or a part of what is due.
fn part_of_file(left: &MemStore, whole: &MemStore, name: &str) -> bool {
    match (left.file(name), whole.file(name)) {
        (Some(part), Some(due)) => due.starts_with(part),
        (part, _) => part.is_none(),
    }
}

/// The name that is written holds what it held, or a part of what is due; all others are as before.
fn keeps_files(left: &MemStore, whole: &MemStore, written: Option<&str>) -> bool {
    let part = match written {
        Some(name) => part_of_file(left, whole, name),
        None => true,
    };
    part && same_file(left, whole, "A") && same_file(left, whole, "A.t")
}

/// Calls the program over the objects, which is to end so with this text.
fn expect_over(
    rt: &impl Abort,
    alloc: Global,
    words: &[&str],
    objects: &mut Objects,
    status: u8,
    text: &str,
) -> Result<(), TestFail> {
    let answer = call_over(alloc, words, objects)?;
    expect_ended(rt, (answer, objects.out.taken()), status, text);
    Ok(())
}

/// The text that was taken is the front of the due one, and then the fault's line.
fn expect_fault(rt: &impl Abort, taken: &[u8], text: &str, line: &[u8]) {
    assert!(rt; names_fault(taken, text, line));
}

/// Calls the program over objects whose store refuses a call, shows what is left, and tells
/// whether the command ended before that call.
fn expect_refused(
    rt: &impl Abort,
    alloc: Global,
    asked: &Asked<'_>,
    whole: &MemStore,
    objects: &mut Objects,
) -> Result<bool, TestFail> {
    let Asked(words, text, written) = asked;
    let status = call_over(alloc, words, objects)?;
    assert!(rt; keeps_files(&objects.store, whole, *written));
    let ended = status == 0;
    if ended {
        expect_ended(rt, (status, objects.out.taken()), 0, text);
    } else {
        expect_equal(rt, &status, &8, "status");
        expect_fault(rt, objects.out.taken(), text, b"store fault\n");
    }
    Ok(ended)
}

/// Refuses the nth call of the store, and tells whether the command ended before that call.
fn refuse_call(
    rt: &impl Abort,
    alloc: Global,
    asked: &Asked<'_>,
    whole: &MemStore,
    nth: u64,
) -> Result<bool, TestFail> {
    let mut objects = failing_objects(alloc, call_fails(alloc, nth)?, no_fails(alloc), ROOM)?;
    expect_refused(rt, alloc, asked, whole, &mut objects)
}

/// What a command leaves where nothing fails.
fn whole(rt: &impl Abort, alloc: Global, asked: &Asked<'_>) -> Result<Objects, TestFail> {
    let Asked(words, text, _) = asked;
    let mut objects = failing_objects(alloc, no_fails(alloc), no_fails(alloc), ROOM)?;
    expect_over(rt, alloc, words, &mut objects, 0, text)?;
    Ok(objects)
}

/// Refuses each call of the store in turn, and gives how many there are.
fn refuse_calls(
    rt: &impl Abort,
    alloc: Global,
    asked: &Asked<'_>,
    whole: &MemStore,
) -> Result<u64, TestFail> {
    for nth in 1..MOST_CALLS {
        if refuse_call(rt, alloc, asked, whole, nth)? {
            return Ok(nth - 1);
        }
    }
    Err("too many calls".into())
}

/// The command calls the store, and each of these calls may fail.
fn expect_refusals(rt: &impl Abort, alloc: Global, asked: &Asked<'_>) -> Result<(), TestFail> {
    let whole = whole(rt, alloc, asked)?;
    let calls = refuse_calls(rt, alloc, asked, &whole.store)?;
    assert!(rt; calls > 0);
    Ok(())
}

#[test]
fn each_call_of_the_store_may_fail(rt: HostRuntime) -> Result<(), TestFail> {
    for asked in ASKED {
        expect_refusals(&rt, rt.alloc(), asked)?;
    }
    Ok(())
}

/// Calls the program where the sink has room for this front of the text alone.
fn cut_at(rt: &impl Abort, alloc: Global, words: &[&str], front: &str) -> Result<(), TestFail> {
    let mut objects = failing_objects(alloc, no_fails(alloc), no_fails(alloc), front.len())?;
    expect_over(rt, alloc, words, &mut objects, 9, front)
}

/// Gives the sink room for fewer bytes than the text has.
fn cut_text(rt: &impl Abort, alloc: Global, asked: &Asked<'_>) -> Result<(), TestFail> {
    let Asked(words, text, _) = asked;
    for room in 0..text.len() {
        cut_at(rt, alloc, words, text.get(..room).ok_or("front")?)?;
    }
    Ok(())
}

#[test]
fn a_sink_takes_the_front_of_each_text(rt: HostRuntime) -> Result<(), TestFail> {
    for asked in ASKED {
        cut_text(&rt, rt.alloc(), asked)?;
    }
    Ok(())
}

/// Calls `play` over objects whose input refuses a read.
fn expect_unheard(rt: &impl Abort, alloc: Global, objects: &mut Objects) -> Result<(), TestFail> {
    let Asked(words, text, _) = PLAYED;
    let status = call_over(alloc, words, objects)?;
    expect_equal(rt, &status, &10, "status");
    expect_fault(rt, objects.out.taken(), text, b"input fault\n");
    Ok(())
}

/// Refuses the nth read of the input.
fn refuse_read(rt: &impl Abort, alloc: Global, nth: u64) -> Result<(), TestFail> {
    let mut objects = failing_objects(alloc, no_fails(alloc), call_fails(alloc, nth)?, ROOM)?;
    expect_unheard(rt, alloc, &mut objects)
}

#[test]
fn each_read_of_the_input_may_fail(rt: HostRuntime) -> Result<(), TestFail> {
    for nth in 1..=INPUT.len() as u64 {
        refuse_read(&rt, rt.alloc(), nth)?;
    }
    Ok(())
}
