//! The verdict on a position, by the codes of both sides.
ghost use Rattle.std.specs.Prelude.{◌≡◌, true};
ghost use Rattle.frz_arena.specs.Codes as codes;
ghost use Rattle.frz_commands_verdict.specs.Verdicts as words;

use frz_arena::is_win;
use frz_board::Colour;

/// What is shown of a position.
#[derive(Clone, Copy, PartialEq, Eq)]
pub enum Verdict {
    /// The side forces mate within so many plies.
    MatesWithin(Colour, u32),
    /// The side forces mate.
    Wins(Colour),
    /// Neither side forces mate.
    Draw,
    /// The opponent of the side does not force mate.
    DoesNotLose(Colour),
    NotShown,
}

/// The verdict by the code of a win of the side, whose plies count to the mate or do not.
fn won(side: Colour, code: u32, counts: bool) -> Verdict
    requires { codes.is_win code ≡ true }
    ensures { result ≡ words.won side code counts }
{
    if counts {
        Verdict::MatesWithin(side, (code - 2) / 2)
    } else {
        Verdict::Wins(side)
    }
}

/// The verdict where neither side has the code of a win.
fn held(white: u32, black: u32) -> Verdict
    ensures { result ≡ words.held white black }
{
    if white == 1 {
        if black == 1 {
            Verdict::Draw
        } else {
            Verdict::DoesNotLose(Colour::White)
        }
    } else if black == 1 {
        Verdict::DoesNotLose(Colour::Black)
    } else {
        Verdict::NotShown
    }
}

/// The verdict by both codes; the plies of a side's wins count to the mate or do not.
pub fn verdict_by(white: u32, black: u32, white_counts: bool, black_counts: bool) -> Verdict
    ensures { result ≡ words.verdict_by white black white_counts black_counts }
{
    if is_win(white) {
        if is_win(black) {
            Verdict::NotShown
        } else {
            won(Colour::White, white, white_counts)
        }
    } else if is_win(black) {
        won(Colour::Black, black, black_counts)
    } else {
        held(white, black)
    }
}
