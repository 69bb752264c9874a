//! The exit lines behind the first line `exit unknown if always`.

ghost use Rattle.std.specs.Prelude.{◌≡◌, ◌<◌, length, IfSome};
ghost use Rattle.std.specs.List.{position_from};
ghost use Rattle.frz_exits.specs.Books.{first_value as line_value};
ghost use Rattle.frz_fide.specs.Valid.{IsValid};
ghost use Rattle.frz_backs.specs.Behind as words;

use frz_exits::{fitting_line, is_unknown};
use frz_fide::Bitboards;
use frz_sets::{Cond, Exit, Test, Value};

/// Are the conditions the one condition `always`?
fn are_always(conds: &[Cond]) -> bool
    ensures { result ≡ words.are_always conds.now }
{
    match conds {
        [only] => !only.negated && matches!(only.test, Test::Always),
        _ => false,
    }
}

/// Is it the line `exit unknown if always`?
fn ends_lines(line: &Exit) -> bool
    ensures { result ≡ words.ends_lines line.now }
{
    is_unknown(line.value) && are_always(&line.conds)
}

/// The place of the first such line.
pub(crate) fn end_of(lines: &[Exit]) -> Option<usize>
    ensures place { result ≡ position_from words.ends_lines 0 lines.now }
    ensures below { IfSome result (λ i. i < length lines.now) }
{
    lines.iter().position(|line| ends_lines(line))
}

/// The lines behind the first such line. There are none where there is no such line.
pub fn lines_behind(lines: &[Exit]) -> &[Exit]
    ensures { result.now ≡ words.lines_behind lines.now }
{
    match end_of(lines) {
        Some(i) => &lines[i + 1..],
        None => &[],
    }
}

/// The value of the first of these lines that fits.
pub(crate) fn value_of(lines: &[Exit], q: &Bitboards) -> Value
    requires { IsValid q.now }
    ensures { result ≡ line_value lines.now q.now }
{
    match fitting_line(lines, q) {
        Some(i) => match lines.get(i) {
            Some(line) => line.value,
            None => Value::Unknown,
        },
        None => Value::Unknown,
    }
}
