//! The lags of the exits one move away that win for a side.

ghost use Rattle.std.specs.Prelude.{◌≡◌, ◌≤◌, ◌⊎◌, All};
ghost use Rattle.frz_sweep.specs.Winning.{HasSmallLag, HasWinAfter, WinsAfter, WinsIn};

use frz_board::Colour;
use frz_exits::{Class, class, lag};
use frz_graph::{Arm, Next};

/// The lag of the exit that a move leads to, if its value wins for the side, and 0 otherwise.
fn winning_lag(side: Colour, next: Next) -> u32
    requires { HasSmallLag next }
    ensures within { WinsIn side result next }
    ensures reached { (result ≡ 0) ⊎ WinsAfter side result next }
    ensures small { result ≤ 1000 }
{
    match next {
        Next::Inside(_) => 0,
        Next::Outside(value) => match class(value, side) {
            Class::Good => lag(value),
            _ => 0,
        },
    }
}

/// The greatest lag, in plies, of the exits of these moves that win for the side, and 0 if none
/// does.
pub fn greatest_winning_lag(side: Colour, arms: &[Arm]) -> u32
    requires { All (λ a. HasSmallLag a.next) arms.now }
    ensures within { All (λ a. WinsIn side result a.next) arms.now }
    ensures reached { (result ≡ 0) ⊎ HasWinAfter side result arms.now }
    ensures small { result ≤ 1000 }
{
    let mut most = 0;
    for arm in arms {
        most = winning_lag(side, arm.next).max(most);
    }
    most
}
