//! Whose wins in tables are told with their plies.

ghost use Rattle.std.specs.Prelude.{◌≡◌, map};
ghost use Rattle.std.specs.List.{list_all};
ghost use Rattle.frz_chain.specs.declared.back.BackTable.{BackTable as Table};
ghost use Rattle.frz_backs.specs.Books.{back_codes};
ghost use Rattle.frz_backs.specs.Counts as words;
ghost use Rattle.frz_backs.specs.FileOn.{loaded_back};

use frz_arena::is_win;
use frz_board::Colour;
use frz_chain::BackTable;
use frz_sets::{Exit, Value};

/// Do the wins of each side count, so that they are told with their plies?
#[derive(Clone, Copy, PartialEq, Eq)]
pub struct Counts {
    pub white: bool,
    pub black: bool,
}

/// The code of a win in 1,000 plies.
const LONGEST: u32 = 2002;

/// Does the value say that the side wins, but not in how many plies?
fn is_uncounted(value: Value, side: Colour) -> bool
    ensures { result ≡ words.is_uncounted value side }
{
    match (value, side) {
        (Value::WhiteWins, Colour::White) => true,
        (Value::BlackWins, Colour::Black) => true,
        _ => false,
    }
}

/// Does each exit line by which the side wins say in how many plies?
#[tactic(auto, unfolding(crate::specs::Counts::lines_count))]
pub fn lines_count(side: Colour, lines: &[Exit]) -> bool
    ensures { result ≡ words.lines_count side lines.now }
{
    lines.iter().all(|line| !is_uncounted(line.value, side))
}

/// Is it the code of no win, or of a win within 1,000 plies?
fn is_short(code: u32) -> bool
    ensures { result ≡ words.is_short code }
{
    !is_win(code) || code <= LONGEST
}

/// Does no code stand for a win beyond 1,000 plies?
fn are_short(codes: &[u32]) -> bool
    ensures { result ≡ list_all words.is_short codes.now }
{
    codes.iter().all(|code| is_short(*code))
}

/// The table's codes of the side.
fn codes_of(back: &BackTable, side: Colour) -> &[u32]
    ensures { result.now ≡ back_codes (loaded_back back.now) side }
{
    match side {
        Colour::White => &back.white,
        Colour::Black => &back.black,
    }
}

/// Do the side's wins in the table count?
fn counts_for(side: Colour, back: &BackTable) -> bool
    ensures { result ≡ words.counts_for side (loaded_back back.now) }
{
    lines_count(side, &back.table.rules().exits) && are_short(codes_of(back, side))
}

/// Do the side's wins count in all these tables?
fn count_for(side: Colour, backs: &[BackTable]) -> bool
    ensures { result
        ≡ list_all (λ back. words.counts_for side (loaded_back back)) backs.now }
{
    backs.iter().all(|back| counts_for(side, back))
}

impl Counts {
    /// Whose wins count in all these tables?
    pub fn of(backs: &[BackTable]) -> Counts
        ensures { result ≡ words.counts_of (map loaded_back backs.now) }
    {
        Counts {
            white: count_for(Colour::White, backs),
            black: count_for(Colour::Black, backs),
        }
    }
}
