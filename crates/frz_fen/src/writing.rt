//! Writes a position as a FEN text.

ghost use Rattle.std.specs.Prelude.{All, ◌≡◌, ◌≤◌, ◌<◌, ◌+◌, ◌++◌, ◌∷◌, ℕ, List, [], replicate, length};
ghost use Rattle.arrayvec.specs.ArrayString.{array_string_len};
ghost use Rattle.frz_fide.specs.Valid.{IsValid};
ghost use Rattle.frz_fen.specs.Reading.{fen_of};
ghost use Rattle.frz_fen.specs.Writing.{fen_text, gap_text, letter_of, placement_text, rank_text, target_text, turn_text};

use arrayvec::ArrayString;
use frz_board::{Colour, Position, Square, man_of};

/// The FEN of a valid position, with the fewest digits, no castling right, and the clocks 0 and 1.
/// Reading it gives the position back.
#[tactic(auto, using(crate::proofs::Roundtrip::reads_back))]
pub fn write_fen(p: &Position) -> ArrayString<100>
    requires { IsValid p.now }
    ensures text { result.bytes ≡ fen_text p.now }
    ensures back { fen_of result.bytes ≡ Ok p.now }
{
    let mut text = ArrayString::new();
    write_placement(p, &mut text);
    push(b' ', &mut text);
    write_turn(p.turn(), &mut text);
    push(b' ', &mut text);
    push(b'-', &mut text);
    push(b' ', &mut text);
    write_target(p.ep(), &mut text);
    push(b' ', &mut text);
    push(b'0', &mut text);
    push(b' ', &mut text);
    push(b'1', &mut text);
    text
}

/// Writes the ranks from 8 down to 1, with slashes between them.
fn write_placement(p: &Position, text: &mut ArrayString<100>)
    requires { text.old.bytes ≡ [] }
    ensures text { text.new.bytes ≡ placement_text p.now.cells }
    ensures short { array_string_len text.new ≤ 71 }
{
    let cells = p.cells();
    let mut rank: usize = 7;
    while rank > 0 {
        write_rank(&cells[8 * rank..8 * rank + 8], text);
        push(b'/', text);
        rank -= 1;
    }
    write_rank(&cells[..8], text);
}

/// Writes a rank from its eight cells, file a first.
fn write_rank(row: &[u8], text: &mut ArrayString<100>)
    requires fits { All (λ cell. cell < 13) row.now }
    requires whole { length row.now ≡ 8 }
    requires room { array_string_len text.old + 8 ≤ 100 }
    ensures text { text.new.bytes ≡ text.old.bytes ++ rank_text row.now }
    ensures short { array_string_len text.new ≤ array_string_len text.old + 8 }
{
    let mut gap = 0;
    for cell in row {
        gap = write_square(*cell, gap, text);
    }
    write_gap(gap, text);
}

/// Writes a square after `gap` empty squares that are not written yet, and returns how many empty
/// squares are still to be written.
fn write_square(cell: u8, gap: u8, text: &mut ArrayString<100>) -> u8
    requires cell { cell < 13 }
    requires gap { gap < 8 }
    requires room { array_string_len text.old + gap + 1 ≤ 100 }
    ensures text { (cells : List ℕ) → text.old.bytes ++ rank_text (replicate gap 0 ++ cell ∷ cells)
        ≡ text.new.bytes ++ rank_text (replicate result 0 ++ cells) }
    ensures gap { result ≤ gap + 1 }
    ensures short { array_string_len text.new + result ≤ array_string_len text.old + gap + 1 }
{
    if cell == 0 {
        return gap + 1;
    }
    write_gap(gap, text);
    push(cell_letter(cell), text);
    0
}

/// Writes the digit of a run of empty squares, and nothing for an empty run.
fn write_gap(gap: u8, text: &mut ArrayString<100>)
    requires gap { gap ≤ 8 }
    requires room { array_string_len text.old + gap ≤ 100 }
    ensures text { text.new.bytes ≡ text.old.bytes ++ gap_text gap }
    ensures short { array_string_len text.new ≤ array_string_len text.old + gap }
{
    if gap > 0 {
        push(b'0' + gap, text);
    }
}

/// The letter of a cell that holds a man.
pub fn cell_letter(cell: u8) -> u8
    requires man { 0 < cell }
    requires fits { cell < 13 }
    ensures letter { result ≡ letter_of cell }
    ensures ascii { result < 128 }
{
    man_of(cell).unwrap().letter()
}

fn write_turn(turn: Colour, text: &mut ArrayString<100>)
    requires { array_string_len text.old < 100 }
    ensures text { text.new.bytes ≡ text.old.bytes ++ turn_text turn }
    ensures short { array_string_len text.new ≤ array_string_len text.old + 1 }
{
    match turn {
        Colour::White => push(b'w', text),
        Colour::Black => push(b'b', text),
    }
}

fn write_target(target: Option<Square>, text: &mut ArrayString<100>)
    requires { array_string_len text.old + 2 ≤ 100 }
    ensures text { text.new.bytes ≡ text.old.bytes ++ target_text target }
    ensures short { array_string_len text.new ≤ array_string_len text.old + 2 }
{
    match target {
        None => push(b'-', text),
        Some(square) => {
            push(b'a' + square.file(), text);
            push(b'1' + square.rank(), text);
        }
    }
}

fn push(byte: u8, text: &mut ArrayString<100>)
    requires ascii { byte < 128 }
    requires room { array_string_len text.old < 100 }
    ensures text { text.new.bytes ≡ text.old.bytes ++ byte ∷ [] }
    ensures len { array_string_len text.new ≡ array_string_len text.old + 1 }
{
    text.push(byte as char);
}
