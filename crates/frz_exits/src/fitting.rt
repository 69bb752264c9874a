//! The exit line that decides a position: the first all of whose conditions hold.
ghost use Rattle.std.specs.Prelude.{◌≡◌};
ghost use Rattle.frz_exits.specs.Conditions.{conditions_hold};
ghost use Rattle.frz_exits.specs.Fitting.{line_at};
ghost use Rattle.frz_fide.specs.Valid.{IsValid};

use crate::conditions::all_hold;
use frz_fide::Bitboards;
use frz_sets::Exit;

/// Do all conditions of the line hold at the position?
fn fits(line: &Exit, q: &Bitboards) -> bool
    requires { IsValid q.now }
    ensures { result ≡ conditions_hold q.now line.now.conds }
{
    all_hold(&line.conds, q)
}

/// The place of the line that decides the position, if one fits. The first line has place 0.
pub fn fitting_line(lines: &[Exit], q: &Bitboards) -> Option<usize>
    requires { IsValid q.now }
    ensures { result ≡ line_at lines.now q.now }
{
    lines.iter().position(|line| fits(line, q))
}
