//! The reply of a command that says everything at its end.
ghost use Rattle.std.specs.Prelude.{◌≡◌};
ghost use Rattle.frz_store.specs.Told.{sink_of};
ghost use Rattle.frz_answer.specs.Texts.{WroteText};
ghost use Rattle.frz_prelude.specs.Replies.{exact_on_line, moved_lines, reply_status, text_of, Tells};

use crate::stop::Stop;
use crate::wrong_lines::write_wrong;
use arrayvec::ArrayString;
use frz_answer::{End, Status, said, write_line, write_numbered, write_numbered_line, write_piece};
use frz_arena::Bound;
use frz_board::{Move, move_text};
use frz_bound_lines::{write_bounds, write_kept};
use frz_game::Wrong;
use frz_store::{Failed, Sink};

/// The reply of a command that says everything at its end.
#[derive(Clone, Copy)]
pub enum Reply {
    /// A move was made: the move, and the FEN of the position after it.
    Moved(Move, ArrayString<100>),
    /// The given text is that of no legal move.
    NoMove,
    /// The bounds of White and of Black.
    Bounds(Bound, Bound),
    /// The codes that a table keeps for White and for Black.
    Kept(u32, u32),
    /// A table of so many numbers was built.
    Built(u32),
    /// A table of so many numbers was built over a back table.
    Chained(u32),
    /// A table of so many numbers was rewritten.
    Migrated(u32),
    /// A table of so many numbers is exact.
    Exact(u32),
    /// A table with the first count of numbers is exact over a back table with the second.
    ExactOn(u32, u32),
    /// The first entry of a table that is not its local code.
    Wrong(Wrong),
}

/// Writes a move as its coordinates on one line, and a FEN on the next.
fn write_moved<O: Sink>(m: Move, fen: &ArrayString<100>, out: &mut O) -> Result<(), Failed>
    ensures { WroteText (moved_lines m fen.now.bytes) result
        (sink_of O.Sink out.old) (sink_of O.Sink out.new) }
{
    write_line(move_text(m).as_bytes(), out)?;
    write_line(fen.as_bytes(), out)
}

/// Writes that a table of `size` numbers is exact over one of `back` numbers.
fn write_exact_on<O: Sink>(size: u32, back: u32, out: &mut O) -> Result<(), Failed>
    ensures { WroteText (exact_on_line size back) result
        (sink_of O.Sink out.old) (sink_of O.Sink out.new) }
{
    write_numbered(b"exact ", size as u64, out)?;
    write_numbered(b" on ", back as u64, out)?;
    write_piece(b"\n", out)
}

impl Reply {
    fn status(&self) -> Status
        ensures { result ≡ reply_status self.now }
    {
        match self {
            Reply::Wrong(_) => Status::Wrong,
            Reply::NoMove => Status::NoMove,
            _ => Status::Success,
        }
    }

    fn write<O: Sink>(self, out: &mut O) -> Result<(), Failed>
        ensures { WroteText (text_of self) result
            (sink_of O.Sink out.old) (sink_of O.Sink out.new) }
    {
        match self {
            Reply::Moved(m, fen) => write_moved(m, &fen, out),
            Reply::NoMove => write_piece(b"no move\n", out),
            Reply::Bounds(white, black) => write_bounds(white, black, out),
            Reply::Kept(white, black) => write_kept(white, black, out),
            Reply::Built(size) => write_numbered_line(b"built ", size as u64, out),
            Reply::Chained(size) => write_numbered_line(b"chained ", size as u64, out),
            Reply::Migrated(size) => write_numbered_line(b"migrated ", size as u64, out),
            Reply::Exact(size) => write_numbered_line(b"exact ", size as u64, out),
            Reply::ExactOn(size, back) => write_exact_on(size, back, out),
            Reply::Wrong(wrong) => write_wrong(wrong, out),
        }
    }
}

/// Ends a command: writes its reply, or the line of the refusal that stopped it. A fault writes
/// nothing here.
pub fn tell<O: Sink>(reply: Result<Reply, Stop>, out: &mut O) -> End
    ensures { Tells reply result (sink_of O.Sink out.old) (sink_of O.Sink out.new) }
{
    match reply {
        Ok(reply) => said(reply.status(), reply.write(out)),
        Err(stop) => stop.end(out),
    }
}
