//! The men: colours, kinds, and the numbers and letters that stand for them.

ghost use Rattle.std.specs.Prelude.{◌≡◌, ◌<◌, ◌≤◌, ◌+◌, ◌↔◌, ◌⊎◌, IsNone, IfSome};

/// The side of a player (FIDE 1.1).
#[derive(Clone, Copy, Debug, PartialEq, Eq, PartialOrd, Ord)]
pub enum Colour {
    White,
    Black,
}

/// What a man is (FIDE 2.2). Kinds are ordered as the variants, the king first.
#[derive(Clone, Copy, Debug, PartialEq, Eq, PartialOrd, Ord)]
pub enum Kind {
    King,
    Queen,
    Rook,
    Bishop,
    Knight,
    Pawn,
}

/// A piece or a pawn of one side. Men are ordered as the numbers that `cell_of` gives them.
#[derive(Clone, Copy, Debug, PartialEq, Eq, PartialOrd, Ord)]
pub struct Man {
    pub colour: Colour,
    pub kind: Kind,
}

ghost use Rattle.frz_board.specs.Men.{other_of, same_colour, cell_of_man, man_of_cell, number_of_kind, kind_of_number, letter_of_kind, kind_of_letter, letter_of_man, man_of_letter};

impl Colour {
    /// The opponent.
    pub fn other(self) -> Colour
        ensures other { result ≡ other_of self }
        ensures back { other_of result ≡ self }
    {
        match self {
            Colour::White => Colour::Black,
            Colour::Black => Colour::White,
        }
    }

    /// Whether both are the same side.
    pub fn is_same(self, other: Colour) -> bool
        ensures { result ≡ same_colour self other }
    {
        self == other
    }
}

impl Kind {
    /// The number of the kind in order, from 1 for the king to 6 for the pawn.
    pub fn number(self) -> u8
        ensures number { result ≡ number_of_kind self }
        ensures back { kind_of_number result ≡ self }
        ensures low { 1 ≤ result }
        ensures high { result ≤ 6 }
    {
        match self {
            Kind::King => 1,
            Kind::Queen => 2,
            Kind::Rook => 3,
            Kind::Bishop => 4,
            Kind::Knight => 5,
            Kind::Pawn => 6,
        }
    }

    /// The kind of a number from 1 to 6.
    pub fn of_number(n: u8) -> Kind
        requires low { 1 ≤ n }
        requires high { n ≤ 6 }
        ensures kind { result ≡ kind_of_number n }
        ensures back { number_of_kind result ≡ n }
    {
        match n {
            1 => Kind::King,
            2 => Kind::Queen,
            3 => Kind::Rook,
            4 => Kind::Bishop,
            5 => Kind::Knight,
            _ => Kind::Pawn,
        }
    }

    /// The letter of the kind in English: K, Q, R, B, N or P (PGN 8.2.3.2).
    pub fn letter(self) -> u8
        ensures letter { result ≡ letter_of_kind self }
        ensures back { kind_of_letter result ≡ Some self }
        ensures low { 65 ≤ result }
        ensures high { result ≤ 90 }
    {
        match self {
            Kind::King => b'K',
            Kind::Queen => b'Q',
            Kind::Rook => b'R',
            Kind::Bishop => b'B',
            Kind::Knight => b'N',
            Kind::Pawn => b'P',
        }
    }

    /// The kind of one of the letters K, Q, R, B, N and P, and `None` of any other byte.
    pub fn of_letter(b: u8) -> Option<Kind>
        ensures kind { result ≡ kind_of_letter b }
        ensures back { IfSome result (λ k. letter_of_kind k ≡ b) }
    {
        match b {
            b'K' => Some(Kind::King),
            b'Q' => Some(Kind::Queen),
            b'R' => Some(Kind::Rook),
            b'B' => Some(Kind::Bishop),
            b'N' => Some(Kind::Knight),
            b'P' => Some(Kind::Pawn),
            _ => None,
        }
    }
}

/// The number that added to a capital letter gives the small one.
pub(crate) const TO_SMALL: u8 = b'a' - b'A';

impl Man {
    /// The letter of the man: a capital for White, a small one for Black (PGN 16.1.3.1).
    pub fn letter(self) -> u8
        ensures letter { result ≡ letter_of_man self }
        ensures back { man_of_letter result ≡ Some self }
        ensures low { 65 ≤ result }
        ensures high { result ≤ 122 }
    {
        match self.colour {
            Colour::White => self.kind.letter(),
            Colour::Black => self.kind.letter() + TO_SMALL,
        }
    }

    /// The man of a letter, a capital for White and a small one for Black, and `None` of any other
    /// byte.
    pub fn of_letter(b: u8) -> Option<Man>
        ensures man { result ≡ man_of_letter b }
        ensures back { IfSome result (λ m. letter_of_man m ≡ b) }
    {
        if let Some(kind) = Kind::of_letter(b) {
            return Some(Man {
                colour: Colour::White,
                kind,
            });
        }
        let kind = Kind::of_letter(b.saturating_sub(TO_SMALL))?;
        Some(Man {
            colour: Colour::Black,
            kind,
        })
    }
}

/// The number that stands for the man in a cell of a board: 1 to 6 for White's kinds in order, 7 to
/// 12 for Black's.
pub fn cell_of(m: Man) -> u8
    ensures cell { result ≡ cell_of_man m }
    ensures back { man_of_cell result ≡ Some m }
    ensures low { 1 ≤ result }
    ensures high { result ≤ 12 }
{
    match m.colour {
        Colour::White => m.kind.number(),
        Colour::Black => m.kind.number() + 6,
    }
}

/// The man that a cell's number stands for: `None` at 0, an empty cell, and above 12.
pub fn man_of(c: u8) -> Option<Man>
    ensures man { result ≡ man_of_cell c }
    ensures none { IsNone result ↔ ((c ≡ 0) ⊎ (12 < c)) }
    ensures back { IfSome result (λ m. cell_of_man m ≡ c) }
{
    if c == 0 || 12 < c {
        return None;
    }
    let (colour, number) = if c <= 6 {
        (Colour::White, c)
    } else {
        (Colour::Black, c - 6)
    };
    Some(Man {
        colour,
        kind: Kind::of_number(number),
    })
}
