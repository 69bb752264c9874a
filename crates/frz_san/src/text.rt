//! The text of a move, byte by byte.
ghost use Rattle.std.specs.Prelude.{◌≡◌, ◌++◌, ◌∷◌, [], ◌<◌, ◌≤◌, ◌+◌};
ghost use Rattle.arrayvec.specs.ArrayString.{array_string_len};
ghost use Rattle.frz_san.specs.Notation.{square_text};

use arrayvec::ArrayString;
use frz_board::Square;

/// The text of a move, of at most seven bytes.
pub type San = ArrayString<8>;

/// Appends a byte.
pub fn add(text: &mut San, byte: u8)
    requires ascii { byte < 128 }
    requires room { array_string_len text.old < 8 }
    ensures bytes { text.new.bytes ≡ text.old.bytes ++ byte ∷ [] }
    ensures len { array_string_len text.new ≡ array_string_len text.old + 1 }
{
    text.push(byte as char);
}

/// Appends the letter of the file and the digit of the rank.
pub fn add_square(text: &mut San, s: Square)
    requires { array_string_len text.old ≤ 6 }
    ensures bytes { text.new.bytes ≡ text.old.bytes ++ square_text s }
    ensures len { array_string_len text.new ≡ array_string_len text.old + 2 }
{
    add(text, b'a' + s.file());
    add(text, b'1' + s.rank());
}
