//! Words of 64 bits as sets of squares, read square by square.

ghost use Rattle.std.specs.Prelude.{◌≤◌, MatchOption};
ghost use Rattle.frz_squares.specs.Words.{HasNoneFrom, IsNext};

/// The first square of the word whose number is `n` or above, and `None` where there is none.
pub fn first_from(word: u64, n: u8) -> Option<u8>
    requires { n ≤ 64 }
    ensures { MatchOption result (HasNoneFrom word n) (IsNext word n) }
{
    if n == 64 {
        return None;
    }
    let rest = word >> n;
    if rest == 0 {
        return None;
    }
    Some(n + rest.trailing_zeros() as u8)
}
