//! Which exit line gives the value of a position.

ghost use Rattle.std.specs.Prelude.{◌≡◌, ◌≤◌, length, map};
ghost use Rattle.std.specs.List.{list_any, position_from};
ghost use Rattle.frz_fide.specs.Valid.{IsValid};
ghost use Rattle.frz_index.specs.Membership.{is_member};
ghost use Rattle.frz_sets.specs.declared.limits.TheConstants.{MOST_EXITS};
ghost use Rattle.frz_sets.specs.Sound.{IsSound};
ghost use Rattle.frz_backs.specs.Behind.{ends_lines as is_end};
ghost use Rattle.frz_backs.specs.FileOn.{loaded_back};
ghost use Rattle.frz_backs.specs.Lines as words;
ghost use Rattle.frz_backs.specs.Loaded.{leans_as};

use crate::behind::{end_of, value_of};
use frz_chain::{BackTable, FileKind};
use frz_exits::{fitting_line, is_unknown};
use frz_fide::Bitboards;
use frz_sets::{Exit, Rules};

/// Does the table lean on those before it?
pub fn leans(back: &BackTable) -> bool
    ensures { result ≡ leans_as back.now.table.kind }
{
    match back.table.kind() {
        FileKind::Atlas => true,
        _ => false,
    }
}

/// Does the set of the table hold the position?
fn holds(back: &BackTable, q: &Bitboards) -> bool
    requires { IsValid q.now }
    ensures { result ≡ is_member back.now.table.rules.groups q.now }
{
    back.table.set().number_on(q).is_some()
}

/// Does the set of one of the tables hold the position?
fn is_behind(backs: &[BackTable], q: &Bitboards) -> bool
    requires { IsValid q.now }
    ensures { result ≡ list_any (λ back. is_member back.table.rules.groups q.now) backs.now }
{
    backs.iter().any(|back| holds(back, q))
}

/// Are the lines behind all tables asked of the position?
fn is_asked_behind(rules: &Rules, backs: &[BackTable], q: &Bitboards) -> bool
    requires { IsValid q.now }
    ensures { result ≡ words.is_asked_behind rules.now (map loaded_back backs.now) q.now }
{
    is_unknown(value_of(&rules.exits, q)) && !is_behind(backs, q)
}

/// The place of the first line behind `exit unknown if always` that fits.
fn line_behind(lines: &[Exit], q: &Bitboards) -> Option<usize>
    requires valid { IsValid q.now }
    requires few { length lines.now ≤ MOST_EXITS }
    ensures { result ≡ words.place_past (position_from is_end 0 lines.now) lines.now q.now }
{
    let end = end_of(lines)?;
    let place = fitting_line(&lines[end + 1..], q)?;
    Some(end + 1 + place)
}

/// The place of the line that gives the value of the position by the text's own lines, in a text
/// that leans on these tables or in another.
pub fn line_over(leans: bool, rules: &Rules, backs: &[BackTable], q: &Bitboards) -> Option<usize>
    requires valid { IsValid q.now }
    requires sound { IsSound rules.now }
    ensures { result ≡ words.line_over leans rules.now (map loaded_back backs.now) q.now }
{
    let first = fitting_line(&rules.exits, q);
    if leans && is_asked_behind(rules, backs, q) {
        line_behind(&rules.exits, q).or(first)
    } else {
        first
    }
}
