//! Journeys from a table into those behind it, all made by hand.
ghost use Rattle.std.specs.Prelude.{◌≡◌, ◌<◌};

use crate::expect::expect_equal;
use crate::stores::check_bytes;
use frz_atlas::load_atlas;
use frz_board::Colour;
use frz_fen::read_fen;
use frz_game::Wrong;
use frz_journeys::{Arrival, Place, play_journey};
use frz_steps::Steps;
use frz_store::{Fail as Failing, FailOn, MemSink, MemSource, MemStore};
use frz_ways::{LineFault, Opponent, PlayFault, Player};
use std::alloc::Global;
use std::marker::Brand;
use std::process::Abort;
use std::sync::ledger::{Blank, Ledger};
use std::test::Fail;
use test_tables::{empty_sink, no_fails, plain_file, rook, store_with, table_file, words_of};

/// The rook's ending before the rook has captured a knight on h1: 4 numbers.
const KNIGHT: &str = "freezer 1
group white 1 K:b6
group white 1 R:g1
group black 1 K:a8,b8
group black 1 N:h1
";

/// White wins if it is to move, by the capture alone: every other move leads to what no table tells.
const KNIGHT_CODES: &[u32] = &[4, 4, 5, 5, 5, 5, 7, 7];

/// The codes of the rook's ending, where the black king may also leave b8 for c8, and White wins.
const ROOK_CODES: &[u32] = &[4, 4, 0, 0, 6, 6, 2, 2, 5, 5, 0, 0, 7, 7, 3, 3];

/// The black king has gone to c8, and White wins by a check on h8: 2 numbers.
const NEXT: &str = "freezer 1
group white 1 K:b6
group white 1 R:h1
group black 1 K:c8
exit white wins if on:white:R:h8
";

const NEXT_CODES: &[u32] = &[4, 5, 5, 5];

/// White is to move, and the black king in the corner.
const CORNER: &str = "k7/8/1K6/8/8/8/8/6Rn w - - 0 1";

/// White is to move, and the black king next to the corner.
const NEXT_TO_IT: &str = "1k6/8/1K6/8/8/8/8/6Rn w - - 0 1";

/// The codes of the rook's ending, from where White is to play and against whom, the input and its
/// calls that fail; which fault stops the journey, if one does, and at which table it arrives, its
/// text, and what it leaves of the input.
#[derive(Drop)]
struct Row<'a> {
    rook: &'a [u32],
    fen: &'a str,
    opponent: Opponent,
    input: &'a [u8],
    fails: &'a [Failing],
    fault: Option<PlayFault>,
    place: Place,
    text: &'a [u8],
    left: &'a [u8],
}

/// A line of two stages. The capture leads into the set of the second table behind.
const LINE: Row = Row {
    rook: ROOK_CODES,
    fen: CORNER,
    opponent: Opponent::Codes,
    input: b"a8b8\n",
    fails: &[],
    fault: None,
    place: Place::Behind(1),
    text: b"white wins within 1\ng1h1\nexit white wins\n\
        back 2\nwhite wins within 2\na8b8\nh1h8\nmate\n",
    left: b"a8b8\n",
};

/// A session of three stages: the second table behind leans on the first, and a reply leads into the
/// set of this. There an exit line tells the value, and the journey ends.
const SESSION: Row = Row {
    rook: ROOK_CODES,
    fen: NEXT_TO_IT,
    opponent: Opponent::Input,
    input: b"b8b7\nb8c8\nc8d7\n",
    fails: &[],
    fault: None,
    place: Place::Behind(0),
    text: b"white wins within 1\nmove g1h1\nexit white wins\n\
        back 2\nwhite wins within 2\nillegal\nreply b8c8\nexit white wins\n\
        back 1\nwhite wins within 1\nmove h1h8\nexit white wins\n",
    left: b"c8d7\n",
};

const ROWS: &[Row] = &[
    LINE,
    // The codes make the king return to the corner.
    Row {
        fen: NEXT_TO_IT,
        text: b"white wins within 1\ng1h1\nexit white wins\n\
            back 2\nwhite wins within 2\nb8a8\nh1h8\nmate\n",
        ..LINE
    },
    SESSION,
    Row {
        fen: CORNER,
        input: b"a8b8",
        place: Place::Behind(1),
        text: b"white wins within 1\nmove g1h1\nexit white wins\n\
            back 2\nwhite wins within 2\nreply a8b8\nmove h1h8\nmate\n",
        left: b"",
        ..SESSION
    },
    Row {
        input: b"b8b7",
        place: Place::Behind(1),
        text: b"white wins within 1\nmove g1h1\nexit white wins\n\
            back 2\nwhite wins within 2\nillegal\ninput ended\n",
        left: b"",
        ..SESSION
    },
    Row {
        input: b"b8c8\n",
        fails: &[Failing {
            on: FailOn::Call,
            nth: 2,
            keep: 0,
        }],
        fault: Some(PlayFault::Input),
        place: Place::Behind(1),
        text: b"white wins within 1\nmove g1h1\nexit white wins\nback 2\nwhite wins within 2\n",
        left: b"8c8\n",
        ..SESSION
    },
    // A wrong code of the table behind, where the way comes to it.
    Row {
        rook: &[4, 6, 0, 0, 8, 6, 2, 2, 5, 5, 0, 0, 7, 7, 3, 3],
        fault: Some(PlayFault::Line(LineFault::Wrong(Wrong {
            side: Colour::White,
            number: 1,
            kept: 6,
            given: 4,
        }))),
        text: b"white wins within 1\ng1h1\nexit white wins\nback 2\nwhite wins within 3\na8b8\n",
        ..LINE
    },
    Row {
        fen: "k7/8/1K6/8/8/8/8/6Rn b - - 0 1",
        fault: Some(PlayFault::Line(LineFault::NoBound)),
        place: Place::Own,
        text: b"",
        ..LINE
    },
    // A position of the set of a table behind, and not of the table's own.
    Row {
        fen: rook::CORNER,
        fault: Some(PlayFault::Line(LineFault::Outside)),
        place: Place::Own,
        text: b"",
        ..LINE
    },
];

/// A store with the knight's table and those behind it.
fn filled(alloc: Global, row: &Row<'_>) -> Result<MemStore, Fail> {
    let knight = table_file(alloc, b"FREEZERB", KNIGHT.as_bytes(), 4, KNIGHT_CODES)?;
    let next = plain_file(alloc, NEXT.as_bytes(), NEXT_CODES)?;
    let rook = table_file(alloc, b"FREEZERB", rook::TEXT.as_bytes(), 8, row.rook)?;
    let files = [
        ("knight", knight.as_slice()),
        ("next", &next),
        ("rook", &rook),
    ];
    store_with(alloc, no_fails(alloc), &files)
}

/// Where White's journey from the position of a row arrives.
fn arrival_of<L: Ledger>(
    alloc: Global,
    row: &Row<'_>,
    source: &mut MemSource,
    out: &mut MemSink,
    steps: &mut Steps<L>,
) -> Result<Arrival, Fail> {
    let p = read_fen(row.fen.as_bytes())?;
    let mut store = filled(alloc, row)?;
    let behind = words_of(alloc, &["next", "rook"])?;
    let loaded = load_atlas(alloc, &mut store, "knight", &behind).or(Err("tables"))?;
    let player = Player {
        side: Colour::White,
        opponent: row.opponent,
    };
    Ok(play_journey(&loaded.table, &loaded.backs, &p, player, source, out, steps))
}

fn check_row<L: Ledger, R: Abort>(
    rt: &R,
    alloc: Global,
    row: &Row<'_>,
    steps: &mut Steps<L>,
) -> Result<(), Fail> {
    let mut source = MemSource::new(row.input.to_vec(alloc)?, row.fails.to_vec(alloc)?);
    let mut out = empty_sink(alloc, 300)?;
    let arrival = arrival_of(alloc, row, &mut source, &mut out, steps)?;
    check_bytes(rt, out.taken(), row.text, row.fen);
    check_bytes(rt, source.left(), row.left, row.fen);
    let given = (arrival.answer.err(), arrival.place);
    expect_equal(rt, &given, &(row.fault, row.place), row.fen);
    Ok(())
}

fn play_rows<L: Ledger, R: Abort>(rt: &R, alloc: Global, blank: Blank) -> Result<(), Fail>
    requires name { blank.name ≡ L.name }
    requires parts { blank.parts ≡ L.parts }
    requires some { 0 < blank.parts }
{
    let mut steps = Steps::<L>::new(blank);
    for row in ROWS {
        check_row(rt, alloc, row, &mut steps)?;
    }
    Ok(())
}

#[test]
fn journeys_over_tables_made_by_hand(rt: HostRuntime) -> Result<(), Fail> {
    let blank = Blank::new(1);
    play_rows::<Brand, _>(&rt, rt.alloc(), blank)
}
