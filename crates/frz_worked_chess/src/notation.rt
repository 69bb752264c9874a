//! Texts of moves, written and read: what the rules of notation say of boards set up by hand.
ghost use Rattle.std.specs.Prelude.{◌≡◌, ◌<◌};
ghost use Rattle.frz_fide.specs.Listing.{legal_moves_of};
ghost use Rattle.frz_fide.specs.Valid.{IsValid};

use crate::placement::set_up_valid;
use frz_board::{Colour, Move, Position, move_text};
use frz_fide::{legal_moves, play};
use frz_san::{read_san, san, san_among};
use frz_steps::Steps;
use std::alloc::Global;
use std::marker::Brand;
use std::process::Abort;
use std::sync::ledger::{Blank, Ledger};
use std::test::Fail;

/// Puts the text of the move behind the others, and a space. Behind a text that `san` gives
/// otherwise than `san_among` comes `!`, and behind one that is not read back `?`.
fn push_san<L: Ledger>(
    text: &mut String,
    p: &Position,
    moves: &[Move],
    m: Move,
    steps: &mut Steps<L>,
) -> Result<(), Fail>
    requires valid { IsValid p.now }
    requires moves { moves.now ≡ legal_moves_of p.now }
{
    if play(p, m).is_none() {
        return Ok(());
    }
    let among = san_among(p, moves, m, steps);
    text.push_str(among.as_str())?;
    if san(p, m, steps).as_str() != among.as_str() {
        text.push('!')?;
    }
    if read_san(p, among.as_bytes(), steps) != Some(m) {
        text.push('?')?;
    }
    Ok(text.push(' ')?)
}

/// The texts of the legal moves.
fn sans_of<L: Ledger>(alloc: Global, p: &Position, steps: &mut Steps<L>) -> Result<String, Fail>
    requires { IsValid p.now }
{
    let mut text = String::new(alloc);
    let moves = legal_moves(p, steps);
    for m in &moves {
        push_san(&mut text, p, &moves, *m, steps)?;
    }
    Ok(text)
}

/// A placement, the side to move and its target; and the texts of its moves.
type Written = (&'static str, Colour, Option<u8>, &'static str);

const WRITTEN: &[Written] = &[
    // en passant; promotion; promotion with capture, with check or without
    (
        "8/8/8/3pP3/8/8/8/K1k5",
        Colour::White,
        Some(43),
        "Ka2 exd6 e6 ",
    ),
    (
        "8/P7/8/8/8/8/8/K1k5",
        Colour::White,
        None,
        "Ka2 a8=Q a8=R a8=B a8=N ",
    ),
    (
        "1n1k4/P7/8/8/8/8/8/K7",
        Colour::White,
        None,
        "Kb1 Ka2 Kb2 a8=Q a8=R a8=B a8=N axb8=Q+ axb8=R+ axb8=B axb8=N ",
    ),
    // the knight on e2 is pinned, so that Nc3 needs no origin
    (
        "4r2k/8/8/8/8/8/4N3/1N2K3",
        Colour::White,
        None,
        "Nd2 Na3 Nc3 Kd1 Kf1 Kd2 Kf2 ",
    ),
    // e6 lets d4 block the bishop; en passant takes that pawn from the board, and mates
    (
        "6bk/7p/8/3pP3/8/8/8/B1K5",
        Colour::White,
        Some(43),
        "Bb2 Bc3 Bd4 Kb1 Kd1 Kb2 Kc2 Kd2 exd6# e6+ ",
    ),
    // mate, and stalemate
    ("k6R/8/1K6/8/8/8/8/8", Colour::Black, None, ""),
    ("k7/8/1Q6/8/8/8/8/4K3", Colour::Black, None, ""),
];

fn expect_written<L: Ledger>(
    rt: &impl Abort,
    alloc: Global,
    row: &Written,
    steps: &mut Steps<L>,
) -> Result<(), Fail> {
    let (placement, turn, target, texts) = *row;
    let p = set_up_valid(placement, turn, target)?;
    let written = sans_of(alloc, &p, steps)?;
    assert!(rt; written.as_str() == texts, "{placement}: {written}");
    Ok(())
}

fn write_moves<L: Ledger, R: Abort>(rt: &R, alloc: Global, blank: Blank) -> Result<(), Fail>
    requires name { blank.name ≡ L.name }
    requires parts { blank.parts ≡ L.parts }
    requires some { 0 < blank.parts }
{
    let mut steps = Steps::<L>::new(blank);
    for row in WRITTEN {
        expect_written(rt, alloc, row, &mut steps)?;
    }
    Ok(())
}

#[test]
fn writes_moves_and_reads_them_back(rt: HostRuntime) -> Result<(), Fail> {
    let blank = Blank::new(1);
    write_moves::<Brand, _>(&rt, rt.alloc(), blank)
}

const MATE: &str = "k7/8/1K6/8/8/8/8/7R";

const ROOKS: &str = "4k3/8/8/R7/8/8/8/R3K3";

const QUEENS: &str = "8/7k/8/8/8/Q7/8/Q1Q3K1";

const KNIGHTS: &str = "4r2k/8/8/8/8/8/4N3/1N2K3";

/// A placement with White to move, a text, and the coordinates of its move.
const READ: &[(&str, &str, &str)] = &[
    // a sign may be left out, and no other may stand for it
    (MATE, "Rh8", "h1h8"),
    (MATE, "Rh8#", "h1h8"),
    (MATE, "Rh8+", ""),
    (MATE, "Rh8##", ""),
    // an origin that is not needed is refused
    (MATE, "R1h8", ""),
    (KNIGHTS, "Nc3", "b1c3"),
    (KNIGHTS, "Nbc3", ""),
    // two rooks on one file, so the rank; queens on the file and on the rank, so both
    (ROOKS, "R1a3", "a1a3"),
    (ROOKS, "Raa3", ""),
    (QUEENS, "Qa1b2", "a1b2"),
    (QUEENS, "Qab2", ""),
    (QUEENS, "Q3b2", "a3b2"),
    (QUEENS, "Qcb2", "c1b2"),
    (MATE, "", ""),
];

/// Is the move that of these coordinates, where none stand for no move?
fn is_at(m: Option<Move>, coordinates: &str) -> bool {
    match m {
        Some(m) => move_text(m).as_str() == coordinates,
        None => coordinates.is_empty(),
    }
}

fn expect_read<L: Ledger>(
    rt: &impl Abort,
    row: &(&str, &str, &str),
    steps: &mut Steps<L>,
) -> Result<(), Fail> {
    let (placement, text, coordinates) = *row;
    let p = set_up_valid(placement, Colour::White, None)?;
    let m = read_san(&p, text.as_bytes(), steps);
    assert!(rt; is_at(m, coordinates), "{text}");
    Ok(())
}

fn read_moves<L: Ledger, R: Abort>(rt: &R, blank: Blank) -> Result<(), Fail>
    requires name { blank.name ≡ L.name }
    requires parts { blank.parts ≡ L.parts }
    requires some { 0 < blank.parts }
{
    let mut steps = Steps::<L>::new(blank);
    for row in READ {
        expect_read(rt, row, &mut steps)?;
    }
    Ok(())
}

#[test]
fn reads_texts_with_and_without_a_sign(rt: HostRuntime) -> Result<(), Fail> {
    let blank = Blank::new(1);
    read_moves::<Brand, _>(&rt, blank)
}
