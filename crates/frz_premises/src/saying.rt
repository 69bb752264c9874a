//! What a table says of a position, against the value that an exit line gives it.
ghost use Rattle.std.specs.Prelude.{◌≡◌};
ghost use Rattle.frz_fide.specs.Valid.{IsValid};
ghost use Rattle.frz_premises.specs.Saying as words;
ghost use Rattle.frz_backs.specs.Loaded.{link_loaded};

use frz_arena::is_win;
use frz_backs::{BackTable, codes_on, leans, lines_count};
use frz_bits::Bitboards;
use frz_board::Colour;
use frz_sets::Value;

/// The code of a position where a side holds.
const HOLD: u32 = 1;

/// Are the plies of the side's wins in the table plies to mate?
pub fn counts_wins(back: &BackTable, side: Colour) -> bool
    ensures { result ≡ words.counts_wins (link_loaded back.now) side }
{
    !leans(back) && lines_count(side, &back.table.rules().exits)
}

/// Is it the code of a hold or of a win?
fn holds(code: u32) -> bool
    ensures { result ≡ words.holds code }
{
    code == HOLD || is_win(code)
}

/// Is it the code of a win within so many plies?
fn wins_within(plies: u32, code: u32) -> bool
    ensures { result ≡ words.wins_within plies code }
{
    is_win(code) && code as u64 <= 2 + 2 * plies as u64
}

/// Do these two codes of the table, White's and Black's, say at least as much as the value?
fn codes_say(back: &BackTable, white: u32, black: u32, value: Value) -> bool
    ensures { result ≡ words.codes_say (link_loaded back.now) white black value }
{
    match value {
        Value::WhiteWins => is_win(white),
        Value::BlackWins => is_win(black),
        Value::WhiteWinsIn(plies) => wins_within(plies, white) && counts_wins(back, Colour::White),
        Value::BlackWinsIn(plies) => wins_within(plies, black) && counts_wins(back, Colour::Black),
        Value::Draw => holds(white) && holds(black),
        Value::WhiteHolds => holds(white),
        Value::BlackHolds => holds(black),
        Value::Unknown => true,
    }
}

/// Is the position in the set of the table, and does the table say there at least as much as the
/// value?
pub fn says_as_much(value: Value, back: &BackTable, q: &Bitboards) -> bool
    requires { IsValid q.now }
    ensures { result ≡ words.says_as_much value (link_loaded back.now) q.now }
{
    match codes_on(back, q) {
        Some((white, black)) => codes_say(back, white, black, value),
        None => false,
    }
}
