//! The lines that refuse a FEN, a rules text, or another thing that the words of a command name.
ghost use Rattle.std.specs.Prelude.{◌≡◌};
ghost use Rattle.frz_store.specs.Told.{sink_of};
ghost use Rattle.frz_answer.specs.Texts.{WroteText};
ghost use Rattle.frz_prelude.specs.Causes.{shape_cause, invalid_cause, fen_cause, fen_line, rules_cause, rules_line};
ghost use Rattle.frz_prelude.specs.Refusals.{refusal_line as line_of};

use crate::file_word::FileWord;
use crate::refused::Refused;
use crate::table_causes::write_file_fault;
use crate::wrong_lines::write_back_wrong;
use frz_answer::{write_numbered, write_piece};
use frz_board::Shape;
use frz_fen::FenFault;
use frz_fide::Invalid;
use frz_rules::{RulesCause, RulesFault};
use frz_store::{Failed, Sink};

fn shape_text(shape: Shape) -> &'static [u8]
    ensures { result.now ≡ shape_cause shape }
{
    match shape {
        Shape::Kings => b"invalid kings",
        Shape::PawnRank => b"invalid pawn rank",
        Shape::TooMany => b"invalid too many",
        Shape::EpPlace => b"invalid ep place",
    }
}

fn invalid_text(why: Invalid) -> &'static [u8]
    ensures { result.now ≡ invalid_cause why }
{
    match why {
        Invalid::Shape(shape) => shape_text(shape),
        Invalid::OpponentInCheck => b"invalid opponent in check",
    }
}

fn write_fen_cause<O: Sink>(fault: FenFault, out: &mut O) -> Result<(), Failed>
    ensures { WroteText (fen_cause fault) result (sink_of O.Sink out.old) (sink_of O.Sink out.new) }
{
    match fault {
        FenFault::Fields => write_piece(b"fields", out),
        FenFault::Placement(rank) => write_numbered(b"placement ", rank as u64, out),
        FenFault::Turn => write_piece(b"turn", out),
        FenFault::Castling => write_piece(b"castling", out),
        FenFault::EpSquare => write_piece(b"ep square", out),
        FenFault::Clock => write_piece(b"clock", out),
        FenFault::Invalid(why) => write_piece(invalid_text(why), out),
    }
}

/// Writes the line that refuses a FEN.
fn write_fen_fault<O: Sink>(fault: FenFault, out: &mut O) -> Result<(), Failed>
    ensures { WroteText (fen_line fault) result (sink_of O.Sink out.old) (sink_of O.Sink out.new) }
{
    write_piece(b"fen: ", out)?;
    write_fen_cause(fault, out)?;
    write_piece(b"\n", out)
}

fn write_rules_cause<O: Sink>(cause: RulesCause, out: &mut O) -> Result<(), Failed>
    ensures { WroteText (rules_cause cause) result (sink_of O.Sink out.old)
        (sink_of O.Sink out.new) }
{
    match cause {
        RulesCause::TooLong => write_piece(b"too long", out),
        RulesCause::Header => write_piece(b"header", out),
        RulesCause::UnknownLine => write_piece(b"unknown line", out),
        RulesCause::Word(place) => write_numbered(b"word ", place as u64, out),
        RulesCause::PawnSquare => write_piece(b"pawn square", out),
        RulesCause::Count => write_piece(b"count", out),
        RulesCause::KingGroup => write_piece(b"king group", out),
        RulesCause::Overlap => write_piece(b"overlap", out),
        RulesCause::TooManyMen => write_piece(b"too many men", out),
        RulesCause::TooManyLines => write_piece(b"too many lines", out),
        RulesCause::SetTooBig(numbers) => write_numbered(b"set too big ", numbers, out),
    }
}

/// Writes the line that refuses a rules text.
pub(crate) fn write_rules_fault<O: Sink>(fault: RulesFault, out: &mut O) -> Result<(), Failed>
    ensures { WroteText (rules_line fault) result (sink_of O.Sink out.old)
        (sink_of O.Sink out.new) }
{
    write_numbered(b"rules ", fault.line as u64, out)?;
    write_piece(b": ", out)?;
    write_rules_cause(fault.cause, out)?;
    write_piece(b"\n", out)
}

/// Writes the line that refuses what the words name.
pub fn write_refusal<O: Sink>(why: Refused, out: &mut O) -> Result<(), Failed>
    ensures { WroteText (line_of why) result (sink_of O.Sink out.old) (sink_of O.Sink out.new) }
{
    match why {
        Refused::Words(why) => write_piece(why.line(), out),
        Refused::Fen(fault) => write_fen_fault(fault, out),
        Refused::MissingRules => write_piece(b"missing rules\n", out),
        Refused::Rules(fault) => write_rules_fault(fault, out),
        Refused::Table(fault) => write_file_fault(FileWord::Table, fault, out),
        Refused::Back(fault) => write_file_fault(FileWord::Back, fault, out),
        Refused::BackWrong(wrong) => write_back_wrong(wrong, out),
        Refused::Outside => write_piece(b"outside\n", out),
    }
}
