//! What the legal moves of a number say before any number is settled.

ghost use Rattle.std.specs.Prelude.{◌≡◌, ◌+◌, ◌^◌, ◌<◌, ◌≤◌, length};
ghost use Rattle.frz_retro.specs.Graphs.{Arm};
ghost use Rattle.frz_retro.specs.Shape.{In, AreShort};
ghost use Rattle.frz_retro.specs.Beginning.{after_code, after_arm};
ghost use Rattle.frz_retro.specs.Beginning.{start_of as start_from, later_of as later_from};

use crate::kinds::is_kind;
use frz_board::Colour;
use frz_graph::{Arm, Next, exit_code};

/// What the arms (legal moves) of a number say before any number is settled. A single arm of the
/// deciding kind settles the number: a win where the side moves, a failure where its opponent does.
/// The settling kind is the other one: it settles the number where all arms that count are of it.
#[derive(Clone, Copy)]
pub struct Start {
    /// Whether at least one arm counts.
    pub any: bool,
    /// How many counted arms are not exits of the settling kind: the number waits for these.
    pub count: u32,
    /// The least code of a counted exit of the deciding kind, or 0.
    pub least: u32,
    /// The greatest code of a counted exit of the settling kind, or 0.
    pub most: u32,
}

/// Adds a counted arm that leads to an exit of this code. `own` says that the side itself moves.
pub fn after_code(own: bool, s: Start, code: u32) -> Start
    requires count { s.count < 2 ^ 31 }
    ensures value { result ≡ after_code own s code }
    ensures count { result.count ≤ s.count + 1 }
    ensures least { s.least ≤ 2002 → code ≤ 2002 → result.least ≤ 2002 }
    ensures most { s.most ≤ 2002 → code ≤ 2002 → result.most ≤ 2002 }
{
    if is_kind(own, code) {
        let least = if s.least == 0 {
            code
        } else {
            code.min(s.least)
        };
        return Start {
            any: true,
            count: s.count + 1,
            least,
            most: s.most,
        };
    }
    if is_kind(!own, code) {
        return Start {
            any: true,
            count: s.count,
            least: s.least,
            most: code.max(s.most),
        };
    }
    Start {
        any: true,
        count: s.count + 1,
        least: s.least,
        most: s.most,
    }
}

/// Adds an arm, which counts only if it is free where the side itself moves (`own`).
pub fn after_arm(own: bool, side: Colour, s: Start, arm: &Arm) -> Start
    requires count { s.count < 2 ^ 31 }
    requires short { AreShort arm.now.next }
    ensures value { result ≡ after_arm own side s arm.now }
    ensures count { result.count ≤ s.count + 1 }
    ensures least { s.least ≤ 2002 → result.least ≤ 2002 }
    ensures most { s.most ≤ 2002 → result.most ≤ 2002 }
{
    if own && !arm.free {
        return s;
    }
    match arm.next {
        Next::Inside(_) => Start {
            any: true,
            count: s.count + 1,
            least: s.least,
            most: s.most,
        },
        Next::Outside(v) => after_code(own, s, exit_code(v, side)),
    }
}

/// What all arms of a number say, taken from the last to the first.
pub fn start_of(own: bool, side: Colour, arms: &[Arm]) -> Start
    requires few { length arms.now < 2 ^ 30 }
    requires short { (a : Arm) → In a arms.now → AreShort a.next }
    ensures value { result ≡ start_from own side arms.now }
    ensures count { result.count ≤ length arms.now }
    ensures least { result.least ≤ 2002 }
    ensures most { result.most ≤ 2002 }
{
    let mut s = Start {
        any: false,
        count: 0,
        least: 0,
        most: 0,
    };
    let mut left = arms.len();
    'arms: while left > 0 {
        left -= 1;
        s = after_arm(own, side, s, &arms[left]);
    }
    s
}

/// The code that its exits alone give the number in the end, one ply beyond the exit that it rests
/// on, or 0 if they give none.
pub fn later_of(s: Start) -> u32
    requires least { s.least ≤ 2002 }
    requires most { s.most ≤ 2002 }
    ensures value { result ≡ later_from s }
    ensures short { result ≤ 2004 }
{
    if s.least > 0 {
        s.least + 2
    } else if s.most > 0 {
        s.most + 2
    } else {
        0
    }
}
