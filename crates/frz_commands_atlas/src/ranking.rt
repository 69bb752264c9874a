//! How good a move is for its mover, by the codes behind it, and moves in order from the best.
ghost use Rattle.std.specs.Prelude.{◌≡◌, OnOk};
ghost use Rattle.frz_commands_atlas.specs.Ranked.{IsRanked, rank_of as rank_by_codes, rank_for as rank_by_side};

use crate::rows::Row;
use frz_arena::is_win;
use frz_board::{Colour, NoMemory};

/// The rank of a move behind which neither side wins is this or at most 3 more: above that of each
/// win of the mover.
pub const MIDDLE: u64 = 4_294_967_296;

/// The rank of a move behind which the opponent wins is this less the code of the win.
pub const LATEST: u64 = 17_179_869_184;

/// The rank of a move by the codes of the mover and of the opponent behind it; the lower, the
/// better.
fn rank_of(own: u32, other: u32) -> u64
    ensures { result ≡ rank_by_codes own other }
{
    if is_win(own) {
        return u64::from(own);
    }
    if is_win(other) {
        return LATEST - u64::from(other);
    }
    match (own == 1, other == 1) {
        (true, false) => MIDDLE,
        (true, true) => MIDDLE + 1,
        (false, false) => MIDDLE + 2,
        (false, true) => MIDDLE + 3,
    }
}

/// The rank of a move for its mover; the lower, the better.
fn rank_for(mover: Colour, row: Row) -> u64
    ensures { result ≡ rank_by_side mover row }
{
    match mover {
        Colour::White => rank_of(row.white, row.black),
        Colour::Black => rank_of(row.black, row.white),
    }
}

/// Puts the rows in order of rank. Rows of one rank stay in their order.
pub fn rank_rows(mover: Colour, rows: &mut Vec<Row>) -> Result<(), NoMemory>
    ensures { OnOk result (IsRanked (rank_by_side mover) rows.old.items rows.new.items) }
{
    match rows.sort_by_key(|row| rank_for(mover, *row)) {
        Ok(()) => Ok(()),
        Err(_) => Err(NoMemory),
    }
}
