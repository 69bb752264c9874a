//! Lines and sessions of the program `atlas` over tables made by hand, where a call fails or a session
//! leaves some of its input.
ghost use Rattle.std.specs.Prelude.{◌≡◌, ◌<◌};

use crate::expect::expect_equal;
use crate::stores::{check_bytes, check_unwritten};
use frz_answer::{End, Fault, Status};
use frz_commands_journeys::{run_line, run_play};
use frz_steps::Steps;
use frz_store::{Fail as Failing, FailOn, MemSink, MemSource, MemStore};
use std::alloc::Global;
use std::marker::Brand;
use std::process::Abort;
use std::sync::ledger::{Blank, Ledger};
use std::test::Fail;
use test_tables::{
    call_fails, empty_sink, no_fails, plain_file, rook, store_with, table_file, words_of,
};

/// The rook's ending before the rook has captured a knight on h1: 4 numbers.
const KNIGHT: &str = "freezer 1
group white 1 K:b6
group white 1 R:g1
group black 1 K:a8,b8
group black 1 N:h1
";

/// White wins from the corner, by the capture alone: one ply and those of the rook's win behind it.
/// Every other move leads to what no table tells.
const KNIGHT_CODES: &[u32] = &[8, 5, 5, 5, 5, 5, 7, 7];

/// White is to move, and the black king in the corner.
const CORNER: &str = "k7/8/1K6/8/8/8/8/6Rn w - - 0 1";

/// A store whose calls fail so, with the table of the knight and that of the rook.
fn filled(alloc: Global, fails: Vec<Failing>) -> Result<MemStore, Fail> {
    let knight = table_file(alloc, b"FREEZERB", KNIGHT.as_bytes(), 4, KNIGHT_CODES)?;
    let rook = plain_file(alloc, rook::TEXT.as_bytes(), &rook::CODES)?;
    let files = [("knight", knight.as_slice()), ("rook", &rook)];
    store_with(alloc, fails, &files)
}

/// How a line or, where there is an input, a session of these words ends.
fn played<L: Ledger>(
    alloc: Global,
    blank: Blank,
    line: &[&str],
    input: Option<&mut MemSource>,
    store: &mut MemStore,
    out: &mut MemSink,
) -> Result<End, Fail>
    requires name { blank.name ≡ L.name }
    requires parts { blank.parts ≡ L.parts }
    requires some { 0 < blank.parts }
{
    let words = words_of(alloc, line)?;
    let mut steps = Steps::<L>::new(blank);
    match input {
        Some(input) => Ok(run_play(alloc, &words, store, input, out, &mut steps)),
        None => Ok(run_line(alloc, &words, store, out, &mut steps)),
    }
}

/// The same with a count of steps that nobody reads.
fn play(
    alloc: Global,
    line: &[&str],
    input: Option<&mut MemSource>,
    store: &mut MemStore,
    out: &mut MemSink,
) -> Result<End, Fail> {
    let blank = Blank::new(1);
    played::<Brand>(alloc, blank, line, input, store, out)
}

/// The words of a line or a session from the corner.
const LINE: &[&str] = &["knight", CORNER, "white", "rook"];

/// A line over a store whose nth call fails stops before anything is written.
fn check_line(rt: &impl Abort, alloc: Global, nth: u64) -> Result<(), Fail> {
    let mut store = filled(alloc, call_fails(alloc, nth)?)?;
    let mut out = empty_sink(alloc, 300)?;
    let end = play(alloc, LINE, None, &mut store, &mut out)?;
    check_unwritten(rt, &end, &out);
    Ok(())
}

/// Opening the table takes five calls, opening the one behind it as its own kind as many, and loading
/// the codes of both, two each. Where one fails, nothing is written.
const CALLS: u64 = 14;

#[test]
fn each_call_of_a_line_may_fail_before_anything_is_written(rt: HostRuntime) -> Result<(), Fail> {
    for nth in 1..CALLS + 1 {
        check_line(&rt, rt.alloc(), nth)?;
    }
    Ok(())
}

/// An input and its calls that fail; the end of White's session from the corner, its text, and what
/// it leaves of the input.
#[derive(Drop)]
struct Reply(
    &'static [u8],
    &'static [Failing],
    End,
    &'static [u8],
    &'static [u8],
);

const REPLIES: &[Reply] = &[
    Reply(
        b"a8a7\na8b8\nb8a8\n",
        &[],
        End::Done(Status::Success),
        b"white wins within 3\nmove g1h1\nexit white wins 2\nback 1\nwhite wins within 2\n\
            illegal\nreply a8b8\nmove h1h8\nmate\n",
        b"b8a8\n",
    ),
    Reply(
        b"0123456789012345678901234567890123456789012345678901234567890123456789",
        &[],
        End::Done(Status::Limit),
        b"white wins within 3\nmove g1h1\nexit white wins 2\nback 1\nwhite wins within 2\n\
            limit line length\n",
        b"56789",
    ),
    Reply(
        b"a8b8\n",
        &[Failing {
            on: FailOn::Call,
            nth: 2,
            keep: 0,
        }],
        End::Stopped(Fault::Input),
        b"white wins within 3\nmove g1h1\nexit white wins 2\nback 1\nwhite wins within 2\n",
        b"8b8\n",
    ),
];

/// A session against this input ends so.
fn check_reply(rt: &impl Abort, alloc: Global, row: &Reply) -> Result<(), Fail> {
    let Reply(bytes, fails, wanted, text, left) = row;
    let mut store = filled(alloc, no_fails(alloc))?;
    let mut input = MemSource::new(bytes.to_vec(alloc)?, fails.to_vec(alloc)?);
    let mut out = empty_sink(alloc, 300)?;
    let end = play(alloc, LINE, Some(&mut input), &mut store, &mut out)?;
    check_bytes(rt, out.taken(), text, "play");
    check_bytes(rt, input.left(), left, "left");
    expect_equal(rt, &end, wanted, "end");
    Ok(())
}

#[test]
fn sessions_over_tables_behind(rt: HostRuntime) -> Result<(), Fail> {
    for row in REPLIES {
        check_reply(&rt, rt.alloc(), row)?;
    }
    Ok(())
}
