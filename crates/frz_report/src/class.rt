//! The class of an exit: the letters of the men that stand after the move.
ghost use Rattle.std.specs.Prelude.{◌≡◌, ◌≤◌, ◌<◌, ◌+◌, ◌++◌, count_by, nat_lt, length, replicate};
ghost use Rattle.arrayvec.specs.ArrayString.{array_string_len};
ghost use Rattle.frz_report.specs.Exits as words;
ghost use Rattle.frz_report.specs.Exits.{letters_in};
ghost use Rattle.frz_report.specs.Walks.{one_if};

use arrayvec::ArrayString;
use frz_board::Position;
use frz_fen::cell_letter;

/// The greatest number of letters of a class: a board has 64 squares.
pub const MOST_LETTERS: usize = 64;

/// The class of an exit: the letters `KQRBNPkqrbnp` in this order, each as often as such men stand.
pub type Class = ArrayString<MOST_LETTERS>;

/// The number of the last man, Black's pawn.
const LAST_MAN: u8 = 12;

/// Appends the letter, if its man is there.
fn push_if(is_there: bool, letter: u8, class: &mut Class)
    requires ascii { letter < 128 }
    requires room { array_string_len class.old + one_if is_there ≤ MOST_LETTERS }
    ensures letters { class.new.bytes ≡ class.old.bytes ++ replicate (one_if is_there) letter }
    ensures len { array_string_len class.new ≡ array_string_len class.old + one_if is_there }
{
    if is_there {
        class.push(letter as char);
    }
}

/// Appends the letter of a man's number as often as such men stand.
fn push_letters(cells: &[u8; 64], cell: u8, class: &mut Class)
    requires man { 0 < cell }
    requires fits { cell < 13 }
    requires cells { length cells.now ≡ 64 }
    requires few { array_string_len class.old ≤ count_by (λ c. nat_lt c cell) cells.now }
    ensures letters { class.new.bytes ≡ class.old.bytes ++ letters_in cells.now cell }
    ensures few { array_string_len class.new ≤ count_by (λ c. nat_lt c (cell + 1)) cells.now }
{
    let letter = cell_letter(cell);
    for standing in cells {
        let is_there = *standing == cell;
        push_if(is_there, letter, class);
    }
}

/// The class of a position.
pub fn class_of(p: &Position) -> Class
    ensures { result.bytes ≡ words.class_of p.now }
{
    let cells = p.cells();
    let mut class = Class::new();
    for cell in 1..LAST_MAN + 1 {
        push_letters(&cells, cell, &mut class);
    }
    class
}
