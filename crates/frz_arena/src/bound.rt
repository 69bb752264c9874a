//! The bound of a side, and its code.

ghost use Rattle.std.specs.Prelude.{◌≡◌, ◌≢◌, ◌+◌, ◌≤◌, ◌^◌, ◌-◌, ◌↔◌, IfSome, IsNone};

/// What a side achieves in the restricted game. The plies of a win run to the mate, or to an exit
/// and on by its lag. Those of a failure run until the side is mated or has no free move, or to a
/// bad exit.
#[derive(Clone, Copy, Debug, PartialEq, Eq)]
pub enum Bound {
    /// A win, with the least plies in which the side forces it.
    Wins(u32),
    /// Neither a win nor a failure.
    Holds,
    /// A failure, with the least plies in which the opponent forces it.
    Fails(u32),
}

ghost use Rattle.frz_arena.specs.Codes.{code_of, plies_of};

/// The code that stands for the bound in a table: 1 for a hold, 2 + 2n for a win of n plies, 3 + 2n
/// for a failure of n plies.
pub fn code(bound: Bound) -> u32
    requires { plies_of bound ≤ 2 ^ 31 - 2 }
    ensures { result ≡ code_of bound }
{
    match bound {
        Bound::Wins(plies) => 2 + 2 * plies,
        Bound::Holds => 1,
        Bound::Fails(plies) => 3 + 2 * plies,
    }
}

/// The bound that a code stands for, and `None` exactly for 0, which stands for no position.
pub fn bound_of(code: u32) -> Option<Bound>
    ensures broken { IsNone result ↔ (code ≡ 0) }
    ensures bound { IfSome result (λ bound. code_of bound ≡ code) }
{
    match code {
        0 => None,
        1 => Some(Bound::Holds),
        _ if code % 2 == 0 => Some(Bound::Wins((code - 2) / 2)),
        _ => Some(Bound::Fails((code - 3) / 2)),
    }
}
