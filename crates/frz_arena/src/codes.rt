//! Which codes stand for wins and for failures.

ghost use Rattle.std.specs.Prelude.{◌≡◌};
ghost use Rattle.frz_arena.specs.Codes as words;

/// Whether the code stands for a win: 2, 4, 6 and so on.
pub fn is_win(code: u32) -> bool
    ensures { result ≡ words.is_win code }
{
    code % 2 == 0 && 0 < code
}

/// Whether the code stands for a failure: 3, 5, 7 and so on.
pub fn is_failure(code: u32) -> bool
    ensures { result ≡ words.is_failure code }
{
    code % 2 == 1 && 1 < code
}
