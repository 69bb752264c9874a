//! What a value is worth to a side, and the code of an exit.

ghost use Rattle.std.specs.Prelude.{◌≡◌, ◌≤◌};
ghost use Rattle.frz_arena.specs.Codes as codes;

/// What the value of a position outside the set is worth to a side.
#[derive(Clone, Copy, PartialEq, Eq)]
pub enum Class {
    /// The side wins.
    Good,
    /// The side holds: a draw, or better.
    Safe,
    /// Neither a win nor a hold of the side is known, so its code is that of a failure.
    Bad,
}

/// The code of an exit for a side. The lag, the plies from the exit to the mate, counts only where
/// the side wins.
pub fn exit_code(class: Class, lag: u32) -> u32
    requires { lag ≤ 1000 }
    ensures { result ≡ codes.exit_code class lag }
{
    match class {
        Class::Good => 2 + 2 * lag,
        Class::Safe => 1,
        Class::Bad => 3,
    }
}
