//! How a way ends, and how its answer becomes that of a line or of a session.
ghost use Rattle.std.specs.Prelude.{◌≡◌};
ghost use Rattle.frz_ways.specs.declared.opponent.Opponent.TheVariants as opponents;
ghost use Rattle.frz_ways.specs.WayEnds.{IsAnswerOf, ended, of_line, of_session};

use crate::end::{LineEnd, LineFault};
use crate::session_end::{PlayFault, SessionEnd};
use frz_board::Move;
use frz_sets::Value;

/// How a way ends, whether it is a line or a session.
#[derive(Clone, Copy)]
pub enum WayEnd {
    Mate,
    Stalemate,
    /// A move left the set, to a position with this value.
    Exit(Value),
    /// Only in a line: it holds, and was cut after the most plies.
    Cut,
    /// Only in a session: the opponent was to move, and the input had no byte left.
    InputEnded,
}

/// How a way finished: with an end within its set, or out of it.
#[derive(Clone, Copy)]
pub enum Finish {
    /// Any end but an exit.
    Here(WayEnd),
    /// From this number, by this move, to a position with this value.
    Left(u32, Move, Value),
}

/// The end of a way, wherever it finished.
pub fn end_answer(finish: Result<Finish, PlayFault>) -> Result<WayEnd, PlayFault>
    ensures { result ≡ ended finish }
{
    match finish? {
        Finish::Here(end) => Ok(end),
        Finish::Left(_, _, value) => Ok(WayEnd::Exit(value)),
    }
}

/// What a line answers where its way answers this.
pub fn line_answer(answer: Result<WayEnd, PlayFault>) -> Result<LineEnd, LineFault>
    requires { IsAnswerOf answer opponents.Codes }
    ensures { answer ≡ of_line result }
{
    match answer {
        Ok(WayEnd::Mate) => Ok(LineEnd::Mate),
        Ok(WayEnd::Stalemate) => Ok(LineEnd::Stalemate),
        Ok(WayEnd::Exit(value)) => Ok(LineEnd::Exit(value)),
        Ok(WayEnd::Cut) => Ok(LineEnd::Cut),
        Ok(WayEnd::InputEnded) => unreachable!(),
        Err(PlayFault::Line(fault)) => Err(fault),
        Err(PlayFault::Input) => unreachable!(),
        Err(PlayFault::Limit(_)) => unreachable!(),
    }
}

/// What a session answers where its way answers this.
pub fn session_answer(answer: Result<WayEnd, PlayFault>) -> Result<SessionEnd, PlayFault>
    requires { IsAnswerOf answer opponents.Input }
    ensures { answer ≡ of_session result }
{
    match answer {
        Ok(WayEnd::Mate) => Ok(SessionEnd::Mate),
        Ok(WayEnd::Stalemate) => Ok(SessionEnd::Stalemate),
        Ok(WayEnd::Exit(value)) => Ok(SessionEnd::Exit(value)),
        Ok(WayEnd::Cut) => unreachable!(),
        Ok(WayEnd::InputEnded) => Ok(SessionEnd::InputEnded),
        Err(fault) => Err(fault),
    }
}
