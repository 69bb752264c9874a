//! The lags of exits that win for a side.

ghost use Rattle.std.specs.Prelude.{◌≡◌, ◌≤◌, ◌↔◌, Some, IsTrue, false, length};
ghost use Rattle.frz_arena.specs.declared.class.Class.TheVariants.{Good};
ghost use Rattle.frz_exits.specs.Values.{class_of, lag_of};
ghost use Rattle.frz_plane_chess.specs.Counted.{HasLagsWithin, HasNoWinWith};
ghost use Rattle.frz_plane_chess.specs.Rows.{HaveLagsWithin};
ghost use Rattle.frz_plane_chess.specs.declared.row.Row.{Row as RowSpec};

use crate::row::Row;
use frz_board::Colour;
use frz_exits::{Class, Value, class, lag};
use frz_plane_exits::ExitPlane;

/// The lag of the value, if it wins for the side, and 0 otherwise; at most 1,000.
fn winning_lag(value: Value, side: Colour) -> u32
    ensures within { lag_of value ≤ 1000 → class_of value side ≡ Good → lag_of value ≤ result }
    ensures small { result ≤ 1000 }
{
    match class(value, side) {
        Class::Good => lag(value).min(1000),
        _ => 0,
    }
}

/// Is the value a win of the side, with this lag?
fn is_win_with(value: Value, side: Colour, plies: u32) -> bool
    ensures { IsTrue result ↔ ((class_of value side ≡ Good) × (lag_of value ≡ plies)) }
{
    class(value, side) == Class::Good && lag(value) == plies
}

/// Is one of the exits a win of the side, with this lag?
pub(crate) fn wins_out(exits: &[ExitPlane], side: Colour, lag: u32) -> bool
    ensures { result ≡ false → HasNoWinWith exits.now side lag }
{
    for exit in exits {
        if is_win_with(exit.value, side, lag) {
            return true;
        }
    }
    false
}

/// At least the lag of each exit that wins for the side, if it is at most 1,000 plies.
fn greatest_winning_lag(exits: &[ExitPlane], side: Colour) -> u32
    ensures within { HasLagsWithin exits.now side result }
    ensures small { result ≤ 1000 }
{
    let mut most = 0;
    for exit in exits {
        most = winning_lag(exit.value, side).max(most);
    }
    most
}

/// At least the lag of each exit of the row that wins for the side, if it is at most 1,000 plies.
fn row_lag(row: &Option<Row>, side: Colour) -> u32
    ensures within { (x : RowSpec) → row.now ≡ Some x → HasLagsWithin x.exits.items side result }
    ensures small { result ≤ 1000 }
{
    match row {
        None => 0,
        Some(row) => greatest_winning_lag(&row.exits, side),
    }
}

/// At least the lag of each exit of the rows that wins for the side, if it is at most 1,000 plies.
pub(crate) fn greatest_lag_of(rows: &[Option<Row>], side: Colour) -> u32
    ensures within { HaveLagsWithin rows.now side (length rows.now) result }
    ensures small { result ≤ 1000 }
{
    let mut most = 0;
    for row in rows {
        most = row_lag(row, side).max(most);
    }
    most
}
