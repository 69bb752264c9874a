//! Squares by their numbers: 0 is a1, 1 is b1, 7 is h1, 63 is h8.

ghost use Rattle.std.specs.Prelude.{◌≡◌, ◌<◌, ◌≤◌};
ghost use Rattle.frz_squares.specs.Squares.{file_of, rank_of};

/// The file of a square's number, from 0 for a to 7 for h.
pub fn file(s: u8) -> u8
    ensures file { result ≡ file_of s }
    ensures below { result < 8 }
{
    s % 8
}

/// The rank of a square's number, from 0 for rank 1 to 7 for rank 8. A number above 63 has a rank
/// above 7.
pub fn rank(s: u8) -> u8
    ensures rank { result ≡ rank_of s }
    ensures below { s < 64 → result < 8 }
{
    s / 8
}
