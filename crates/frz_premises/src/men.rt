//! Whether the men on the board alone show that a value is true.
ghost use Rattle.std.specs.Prelude.{◌≡◌};
ghost use Rattle.frz_board.specs.Shapes.{count_of};
ghost use Rattle.frz_fide.specs.Valid.{IsValid};
ghost use Rattle.frz_premises.specs.Men as words;

use frz_bits::Bitboards;
use frz_board::{Colour, Kind, Man};
use frz_sets::Value;

/// How many men of this colour and kind stand on the board.
fn count(q: &Bitboards, colour: Colour, kind: Kind) -> u32
    requires { IsValid q.now }
    ensures { result ≡ count_of q.now colour kind }
{
    q.men(Man { colour, kind }).count_ones()
}

/// Has the side no queen, no rook and no pawn?
fn has_no_major(q: &Bitboards, colour: Colour) -> bool
    requires { IsValid q.now }
    ensures { result ≡ words.has_no_major q.now colour }
{
    count(q, colour, Kind::Queen) == 0
        && (count(q, colour, Kind::Rook) == 0 && count(q, colour, Kind::Pawn) == 0)
}

/// Has the side at most so many bishops and so many knights?
fn has_minors(q: &Bitboards, colour: Colour, bishops: u32, knights: u32) -> bool
    requires { IsValid q.now }
    ensures { result ≡ words.has_minors q.now colour bishops knights }
{
    count(q, colour, Kind::Bishop) <= bishops && count(q, colour, Kind::Knight) <= knights
}

/// Has the side its king alone?
#[tactic(auto, unfolding(crate::specs::Men::is_bare))]
fn is_bare(q: &Bitboards, colour: Colour) -> bool
    requires { IsValid q.now }
    ensures { result ≡ words.is_bare q.now colour }
{
    has_no_major(q, colour) && has_minors(q, colour, 0, 0)
}

/// Has the side beside its king one man at most, a bishop or a knight?
#[tactic(auto, unfolding(crate::specs::Men::has_one_minor))]
fn has_one_minor(q: &Bitboards, colour: Colour) -> bool
    requires { IsValid q.now }
    ensures { result ≡ words.has_one_minor q.now colour }
{
    has_no_major(q, colour) && (has_minors(q, colour, 1, 0) || has_minors(q, colour, 0, 1))
}

/// Has neither side the men to mate?
#[tactic(auto, unfolding(crate::specs::Men::has_dead_men))]
fn has_dead_men(q: &Bitboards) -> bool
    requires { IsValid q.now }
    ensures { result ≡ words.has_dead_men q.now }
{
    (is_bare(q, Colour::White) && has_one_minor(q, Colour::Black))
        || (is_bare(q, Colour::Black) && has_one_minor(q, Colour::White))
}

/// Do the men show that the value is true?
pub(crate) fn men_show(value: Value, q: &Bitboards) -> bool
    requires { IsValid q.now }
    ensures { result ≡ words.men_show value q.now }
{
    match value {
        Value::Draw => has_dead_men(q),
        Value::WhiteHolds => is_bare(q, Colour::Black),
        Value::BlackHolds => is_bare(q, Colour::White),
        Value::Unknown => true,
        _ => false,
    }
}
