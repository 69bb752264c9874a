//! Sessions over table files made by hand, where a call fails or some of the input is left.
ghost use Rattle.std.specs.Prelude.{◌≡◌, ◌<◌};

use crate::expect::expect_equal;
use crate::stores::{check_bytes, table_store};
use frz_board::Colour;
use frz_fen::read_fen;
use frz_game::Wrong;
use frz_sets::Value;
use frz_steps::Steps;
use frz_store::{Fail as Failing, FailOn, MemSink, MemSource, MemStore};
use frz_table::open_table;
use frz_ways::{
    LineFault, MOST_LENGTH, MOST_LINES, PlayFault, PlayLimit, SessionEnd, play_session,
};
use std::alloc::Global;
use std::marker::Brand;
use std::process::Abort;
use std::sync::ledger::{Blank, Ledger};
use std::test::Fail;
use test_tables::{empty_sink, rook};

/// Two kings far apart, and all is drawn outside: 8 numbers.
const KINGS: &str = "freezer 1
group white 1 K:a1,b1
group black 1 K:g8,h8
exit draw if always
";

const KINGS_CODES: [u32; 16] = [1; 16];

/// White is to move, and only kings are left.
const APART: &str = "7k/8/8/8/8/8/8/K7 w - - 0 1";

/// A rules text, the codes of its file, a position and an input, and the calls of the store and of
/// the input that fail; what White's session answers there, its text, and what it leaves of the
/// input.
#[derive(Drop)]
struct Row<'a> {
    rules: &'a str,
    codes: &'a [u32],
    fen: &'a str,
    input: &'a [u8],
    store_fails: &'a [Failing],
    input_fails: &'a [Failing],
    wanted: Result<SessionEnd, PlayFault>,
    text: &'a [u8],
    left: &'a [u8],
}

/// A session to mate. What stands behind its last line is left.
const MATE: Row = Row {
    rules: rook::TEXT,
    codes: &rook::CODES,
    fen: rook::CORNER,
    input: b"a8b8\nb8a8\n",
    store_fails: &[],
    input_fails: &[],
    wanted: Ok(SessionEnd::Mate),
    text: b"white wins within 2\nreply a8b8\nmove h1h8\nmate\n",
    left: b"b8a8\n",
};

/// A session of the two kings, to an exit.
const DRAW: Row = Row {
    rules: KINGS,
    codes: &KINGS_CODES,
    fen: APART,
    input: b"h8h7\n",
    store_fails: &[],
    input_fails: &[],
    wanted: Ok(SessionEnd::Exit(Value::Draw)),
    text: b"white holds\nmove a1b1\nreply h8h7\nexit draw\n",
    left: b"",
};

const ROWS: &[Row] = &[
    MATE,
    Row {
        input: b"\t h8h7 \r\nh8h7",
        left: b"h8h7",
        ..DRAW
    },
    // 64 bytes are a line, and one more is none.
    Row {
        input: b"                                                             h8h7\n",
        wanted: Err(PlayFault::Limit(PlayLimit::LineLength)),
        text: b"white holds\nmove a1b1\n",
        left: b"\n",
        ..DRAW
    },
    Row {
        fen: rook::OUTSIDE,
        wanted: Err(PlayFault::Line(LineFault::Outside)),
        text: b"",
        left: b"a8b8\nb8a8\n",
        ..MATE
    },
    // A wrong entry at the start.
    Row {
        codes: &[4, 4, 0, 0, 8, 5, 2, 2, 5, 5, 0, 0, 7, 7, 3, 3],
        wanted: Err(PlayFault::Line(LineFault::Wrong(Wrong {
            side: Colour::White,
            number: 4,
            kept: 8,
            given: 6,
        }))),
        text: b"",
        left: b"a8b8\nb8a8\n",
        ..MATE
    },
    // Four reads open the file; then come the start and the moves that stay in the set.
    Row {
        store_fails: &[Failing {
            on: FailOn::Read,
            nth: 5,
            keep: 0,
        }],
        wanted: Err(PlayFault::Line(LineFault::Store)),
        text: b"",
        left: b"a8b8\nb8a8\n",
        ..MATE
    },
    Row {
        store_fails: &[Failing {
            on: FailOn::Read,
            nth: 6,
            keep: 0,
        }],
        wanted: Err(PlayFault::Line(LineFault::Store)),
        text: b"",
        left: b"a8b8\nb8a8\n",
        ..MATE
    },
    Row {
        store_fails: &[Failing {
            on: FailOn::Read,
            nth: 7,
            keep: 0,
        }],
        wanted: Err(PlayFault::Line(LineFault::Store)),
        text: b"white wins within 2\nreply a8b8\n",
        ..MATE
    },
    // Where a read of the input fails, what was taken before is gone from it.
    Row {
        input_fails: &[Failing {
            on: FailOn::Call,
            nth: 1,
            keep: 0,
        }],
        wanted: Err(PlayFault::Input),
        text: b"white wins within 2\n",
        left: b"a8b8\nb8a8\n",
        ..MATE
    },
    Row {
        input_fails: &[Failing {
            on: FailOn::Call,
            nth: 4,
            keep: 0,
        }],
        wanted: Err(PlayFault::Input),
        text: b"white wins within 2\n",
        left: b"8\nb8a8\n",
        ..MATE
    },
];

/// What White's session from the position answers.
fn answer_of<L: Ledger>(
    alloc: Global,
    fen: &str,
    store: &mut MemStore,
    source: &mut MemSource,
    out: &mut MemSink,
    steps: &mut Steps<L>,
) -> Result<Result<SessionEnd, PlayFault>, Fail> {
    let p = read_fen(fen.as_bytes())?;
    let table = open_table(alloc, store, "A.t")?;
    Ok(play_session(&table, store, &p, Colour::White, source, out, steps))
}

/// Over this store and this input the session of a row answers what is wanted, and has its text.
fn check_session<L: Ledger, R: Abort>(
    rt: &R,
    alloc: Global,
    row: &Row<'_>,
    store: &mut MemStore,
    source: &mut MemSource,
    steps: &mut Steps<L>,
) -> Result<(), Fail> {
    let mut out = empty_sink(alloc, 100_000)?;
    let answer = answer_of(alloc, row.fen, store, source, &mut out, steps)?;
    check_bytes(rt, out.taken(), row.text, row.fen);
    expect_equal(rt, &answer, &row.wanted, row.fen);
    Ok(())
}

fn source_of(alloc: Global, row: &Row<'_>) -> Result<MemSource, Fail> {
    let fails = row.input_fails.to_vec(alloc)?;
    Ok(MemSource::new(row.input.to_vec(alloc)?, fails))
}

/// Over this store the session of a row does what is wanted, and leaves what it must of its input.
fn check_input<L: Ledger, R: Abort>(
    rt: &R,
    alloc: Global,
    row: &Row<'_>,
    store: &mut MemStore,
    steps: &mut Steps<L>,
) -> Result<(), Fail> {
    let mut source = source_of(alloc, row)?;
    check_session(rt, alloc, row, store, &mut source, steps)?;
    check_bytes(rt, source.left(), row.left, row.fen);
    Ok(())
}

fn check_row<L: Ledger, R: Abort>(
    rt: &R,
    alloc: Global,
    row: &Row<'_>,
    steps: &mut Steps<L>,
) -> Result<(), Fail> {
    let mut store = table_store(alloc, row.rules, row.codes, row.store_fails)?;
    check_input(rt, alloc, row, &mut store, steps)
}

/// The front, the line 10,000 times, and the back.
fn repeated(alloc: Global, front: &[u8], line: &[u8], back: &[u8]) -> Result<Vec<u8>, Fail> {
    let mut bytes = front.to_vec(alloc)?;
    for _ in 0..10_000 {
        bytes.extend_from_slice(line)?;
    }
    bytes.extend_from_slice(back)?;
    Ok(bytes)
}

/// The most lines are read, and then no byte more.
fn most_lines<'a>(input: &'a [u8], text: &'a [u8]) -> Row<'a> {
    Row {
        rules: rook::TEXT,
        codes: &rook::CODES,
        fen: rook::CORNER,
        input,
        store_fails: &[],
        input_fails: &[],
        wanted: Err(PlayFault::Limit(PlayLimit::Lines)),
        text,
        left: b"a8b8\n",
    }
}

fn check_most_lines<L: Ledger, R: Abort>(
    rt: &R,
    alloc: Global,
    steps: &mut Steps<L>,
) -> Result<(), Fail> {
    let input = repeated(alloc, b"", b"\n", b"a8b8\n")?;
    let text = repeated(alloc, b"white wins within 2\n", b"illegal\n", b"")?;
    let row = most_lines(&input, &text);
    check_row(rt, alloc, &row, steps)
}

fn play_rows<L: Ledger, R: Abort>(rt: &R, alloc: Global, blank: Blank) -> Result<(), Fail>
    requires name { blank.name ≡ L.name }
    requires parts { blank.parts ≡ L.parts }
    requires some { 0 < blank.parts }
{
    let mut steps = Steps::<L>::new(blank);
    for row in ROWS {
        check_row(rt, alloc, row, &mut steps)?;
    }
    check_most_lines(rt, alloc, &mut steps)
}

#[test]
fn sessions_over_files_made_by_hand(rt: HostRuntime) -> Result<(), Fail> {
    expect_equal(&rt, &MOST_LINES, &10_000, "lines");
    expect_equal(&rt, &MOST_LENGTH, &64, "length");
    let blank = Blank::new(1);
    play_rows::<Brand, _>(&rt, rt.alloc(), blank)
}
