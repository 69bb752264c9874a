//! Reads the placement of a FEN text, rank by rank.

ghost use Rattle.std.specs.Prelude.{◌≡◌, ◌≤◌, ◌<◌, ◌+◌, ◌*◌, ◌++◌, ◌∷◌, true, false, replicate, drop, length, MatchOption, IfSome, IfOk, option_map};
ghost use Rattle.arrayvec.specs.ArrayVec.{array_vec_len};
ghost use Rattle.frz_board.specs.Boards.{CellsFit};
ghost use Rattle.frz_fen.specs.Placement.{cells_of, is_gap_or_man, is_rank, rank_cells, ranks, ranks_left};
ghost use Rattle.frz_fen.specs.Reading.{placement_of};

use super::fault::FenFault;
use arrayvec::ArrayVec;
use frz_board::{Man, cell_of};
use frz_words::cut;

/// The cells of the 64 squares that a placement stands for, a1 first, then b1; or the fault of the
/// first rank from 8 down that is wrong or missing.
#[tactic(auto, using(crate::proofs::Placing::placing))]
pub fn read_placement(field: &[u8]) -> Result<[u8; 64], FenFault>
    ensures read { result ≡ placement_of field.now }
    ensures fits { IfOk result CellsFit }
{
    let mut cells = [0; 64];
    let mut rest = Some(field);
    let mut rank: u8 = 8;
    while rank > 0 {
        let Some(text) = rest else {
            return Err(FenFault::Placement(rank));
        };
        let (part, after) = first_rank(text);
        let Some(row) = read_rank(part) else {
            return Err(FenFault::Placement(rank));
        };
        rank -= 1;
        put_row(&mut cells, 8 * rank as usize, &row);
        rest = after;
    }
    match rest {
        None => Ok(cells),
        Some(_) => Err(FenFault::Placement(0)),
    }
}

/// The text of the first rank, and the text behind its slash, if there is one.
fn first_rank(text: &[u8]) -> (&[u8], Option<&[u8]>)
    ensures { ranks text.now ≡ result.0.now ∷ ranks_left (option_map (λ t. t.now) result.1) }
{
    match cut(text, b'/') {
        None => (text, None),
        Some((part, after)) => (part, Some(after)),
    }
}

/// Puts the eight cells of a rank in their places, of which `at` is the first.
fn put_row(cells: &mut [u8; 64], at: usize, row: &[u8])
    requires inside { at + 8 ≤ 64 }
    requires whole { length row.now ≡ 8 }
    ensures { drop at cells.new ≡ row.now ++ drop (at + 8) cells.old }
{
    cells[at..at + 8].copy_from_slice(row);
}

/// The eight cells of a rank, from file a to file h; `None` where the text does not fill the rank
/// exactly.
#[tactic(auto, using(crate::proofs::RankCells::reading_rank))]
fn read_rank(part: &[u8]) -> Option<ArrayVec<u8, 8>>
    ensures right { MatchOption result (is_rank part.now ≡ false)
        (λ row. (is_rank part.now ≡ true) × (row.items ≡ rank_cells part.now)) }
    ensures whole { IfSome result (λ row. length row.items ≡ 8) }
{
    let mut row = ArrayVec::new();
    for byte in part {
        let (cell, count) = run_of(*byte)?;
        if row.len() + count > 8 {
            return None;
        }
        push_run(&mut row, cell, count);
    }
    if row.len() == 8 { Some(row) } else { None }
}

/// Pushes `count` squares with this cell.
fn push_run(row: &mut ArrayVec<u8, 8>, cell: u8, count: usize)
    requires { array_vec_len row.old + count ≤ 8 }
    ensures { row.new.items ≡ row.old.items ++ replicate count cell }
{
    for _square in 0..count {
        row.push(cell);
    }
}

/// The cell that a byte stands for, and how many squares have it: a digit 1 to 8 stands for empty
/// squares, a letter for one man; `None` for any other byte.
fn run_of(byte: u8) -> Option<(u8, usize)>
    ensures run { MatchOption result (is_gap_or_man byte ≡ false)
        (λ r. (is_gap_or_man byte ≡ true) × (cells_of byte ≡ replicate r.1 r.0)) }
    ensures few { IfSome result (λ r. r.1 ≤ 8) }
{
    if b'1' <= byte && byte <= b'8' {
        return Some((0, (byte - b'0') as usize));
    }
    let man = Man::of_letter(byte)?;
    Some((cell_of(man), 1))
}
