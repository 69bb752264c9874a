//! Turn states, which are the side to move and the en passant target, and their numbers.
ghost use Rattle.std.specs.Prelude.{◌≡◌, ◌<◌, ◌≤◌, IfSome, length};
ghost use Rattle.std.specs.List.{All};
ghost use Rattle.frz_index.specs.TurnStates.{mover_at_target, place_of, target_state, turn_among, turn_in};

use frz_board::{Colour, Square};

fn place(targets: &[u8], t: u8) -> u32
    requires { length targets.now ≤ 64 }
    ensures { result ≡ place_of t targets.now }
{
    let mut at = 0;
    for x in targets {
        if t == *x {
            return at;
        }
        at += 1;
    }
    at
}

/// The number of a turn state: 0 for White to move, 1 for Black to move, and for a target 2 plus
/// its index among the targets.
pub(crate) fn turn_number(targets: &[u8], turn: Colour, target: Option<Square>) -> u32
    requires { length targets.now ≤ 64 }
    ensures { result ≡ turn_among targets.now turn target }
{
    match target {
        Some(t) => place(targets, t.number()) + 2,
        None => match turn {
            Colour::White => 0,
            Colour::Black => 1,
        },
    }
}

/// The side to move where this square is the target: Black if it is one that White's pawns pass
/// over, else White.
fn mover_at(t: Square) -> Colour
    ensures { result ≡ mover_at_target t }
{
    if t.is_passing_rank(Colour::White) {
        Colour::Black
    } else {
        Colour::White
    }
}

fn turn_of_target(target: Option<u8>) -> (Colour, Option<Square>)
    requires { IfSome target (λ t. t < 64) }
    ensures { result ≡ target_state target }
{
    match target {
        None => (Colour::White, None),
        Some(t) => {
            let target = Square::at(t);
            (mover_at(target), Some(target))
        }
    }
}

/// The side to move and the target of a turn state's number. A number above all turn states gives
/// White to move and no target.
pub(crate) fn turn_at(targets: &[u8], n: u32) -> (Colour, Option<Square>)
    requires { All (λ t. t < 64) targets.now }
    ensures { result ≡ turn_in targets.now n }
{
    match n {
        0 => (Colour::White, None),
        1 => (Colour::Black, None),
        _ => turn_of_target(targets.get(n as usize - 2).copied()),
    }
}
