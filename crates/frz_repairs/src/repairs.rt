//! What a text lacks where a move leaves its set.
ghost use Rattle.std.specs.Prelude.{◌≡◌, true};
ghost use Rattle.frz_board.specs.Boards.{man_on};
ghost use Rattle.frz_fide.specs.Legal.{after as board_after, is_legal};
ghost use Rattle.frz_fide.specs.Valid.{IsValid};
ghost use Rattle.frz_store.specs.Told.{sink_of};
ghost use Rattle.frz_answer.specs.Texts.{WroteText};
ghost use Rattle.frz_repairs.specs.Repairs as words;

use crate::texts::{write_captured, write_moved, write_promoted, write_table};
use crate::victim::{Victim, captured_by};
use frz_bits::Bitboards;
use frz_board::Move;
use frz_fide::after;
use frz_store::{Failed, Sink};

/// Writes the line of the man that the move moves, if one stands there.
fn write_move<O: Sink>(p: &Bitboards, m: Move, out: &mut O) -> Result<(), Failed>
    ensures { WroteText (words.move_line (man_on p.now m.from) m.to) result
        (sink_of O.Sink out.old) (sink_of O.Sink out.new) }
{
    match p.man(m.from) {
        Some(man) => write_moved(man, m.to, out),
        None => Ok(()),
    }
}

/// Writes the line of the mover's pawn that becomes something by the move, if one does.
fn write_new_man<O: Sink>(p: &Bitboards, m: Move, out: &mut O) -> Result<(), Failed>
    ensures { WroteText (words.promotion_line m.promo p.now.turn m.to) result
        (sink_of O.Sink out.old) (sink_of O.Sink out.new) }
{
    write_promoted(p.turn(), m, out)
}

/// Writes the line of the table of the men that stand after the move.
fn write_table_behind<O: Sink>(p: &Bitboards, m: Move, out: &mut O) -> Result<(), Failed>
    requires valid { IsValid p.now }
    requires legal { is_legal p.now m ≡ true }
    ensures { WroteText (words.table_line (board_after p.now m)) result
        (sink_of O.Sink out.old) (sink_of O.Sink out.new) }
{
    write_table(after(p, m).as_position(), out)
}

/// Writes the lines of a move after which other men stand.
fn write_men<O: Sink>(
    p: &Bitboards,
    m: Move,
    victim: Option<Victim>,
    out: &mut O,
) -> Result<(), Failed>
    requires valid { IsValid p.now }
    requires legal { is_legal p.now m ≡ true }
    ensures { WroteText (words.men_lines victim p.now m) result
        (sink_of O.Sink out.old) (sink_of O.Sink out.new) }
{
    write_captured(victim, out)?;
    write_new_man(p, m, out)?;
    write_table_behind(p, m, out)
}

/// Writes the repairs of a legal move: a line each says what a text has to allow that the position
/// behind the move be in its set, and the last, where other men stand after the move, of which men
/// a follow-up table would do as well.
#[tactic(auto, unfolding(crate::specs::Repairs::repairs_text))]
pub fn write_repairs<O: Sink>(p: &Bitboards, m: Move, out: &mut O) -> Result<(), Failed>
    requires valid { IsValid p.now }
    requires legal { is_legal p.now m ≡ true }
    ensures { WroteText (words.repairs_text p.now m) result
        (sink_of O.Sink out.old) (sink_of O.Sink out.new) }
{
    match (captured_by(p, m), m.promo) {
        (None, None) => write_move(p, m, out),
        (victim, _) => write_men(p, m, victim, out),
    }
}
