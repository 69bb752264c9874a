//! The code that the mover chooses, found in one walk over the codes of his moves.

ghost use Rattle.std.specs.Prelude.{◌≡◌, [], ◌∷◌, ◌++◌, ℕ, Bool, List};
ghost use Rattle.frz_arena.specs.LocalCodes.{turn_code};
ghost use Rattle.frz_arena.specs.Ranks.{rank_of as rank_of_code};

use super::codes::is_win;

/// The best code for the mover among those of his moves so far, kept as its rank.
#[derive(Clone, Copy)]
pub struct Best {
    /// True where the side that the codes are for is to move, false where its opponent is.
    own: bool,
    rank: u64,
}

ghost use Rattle.frz_arena.specs.Best.{IsBest};

/// The rank of the codes 0 and 1, which the mover neither seeks nor shuns: behind all codes that he
/// seeks, and before all that he shuns.
const HELD: u64 = 4_294_967_296;

/// The rank of a code for the mover: the lower, the better.
fn rank_of(own: bool, code: u32) -> u64
    ensures { result ≡ rank_of_code own code }
{
    if code < 2 {
        HELD
    } else if is_win(code) == own {
        u64::from(code)
    } else {
        u64::MAX - u64::from(code)
    }
}

impl Best {
    /// A walk that has met no code yet. `own` says that the side itself is to move, not its
    /// opponent.
    pub fn new(own: bool) -> Best
        ensures { IsBest own [] result }
    {
        Best {
            own,
            rank: if own { u64::MAX - 1 } else { u64::MAX },
        }
    }

    /// The walk after one code more.
    pub fn with(self, code: u32) -> Best
        ensures { (own : Bool) (cs : List ℕ) → IsBest own cs self →
            IsBest own (cs ++ code ∷ []) result }
    {
        Best {
            own: self.own,
            rank: self.rank.min(rank_of(self.own, code)),
        }
    }

    /// The code that the mover's choice gives the position: the best code met with one ply (2)
    /// more, or 1 where the best is 0 or 1. Where no code was met it is that of a mate: 3 if the
    /// side itself is to move, else 2.
    pub fn code(self) -> u64
        ensures { (own : Bool) (cs : List ℕ) → IsBest own cs self → result ≡ turn_code own cs }
    {
        if self.rank < HELD {
            self.rank + 2
        } else if self.rank == HELD {
            1
        } else {
            u64::MAX - self.rank + 2
        }
    }
}
