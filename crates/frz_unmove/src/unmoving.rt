//! All moves that lead to a number, taken back.
ghost use Rattle.std.specs.Prelude.{ℕ, ◌≡◌, ◌+◌, ◌↔◌, Contains};
ghost use Rattle.frz_board.specs.Moving.{Step};
ghost use Rattle.frz_index.specs.Members.{Broken};
ghost use Rattle.frz_unmove.specs.Pairs.{HaveDifferentNumbers, LeadsTo};

use crate::gathering::add_all;
use crate::preds::Preds;
use frz_index::Set;
use frz_steps::Steps;
use std::sync::ledger::Ledger;

/// Lists the predecessors of the number `q`, which must not be broken: each number from which a
/// legal move leads to `q`, once, with that move. They replace what was in `out`. The call counts
/// as one step, and takes no memory.
pub fn unmoves<L: Ledger>(set: &Set, q: u32, out: &mut Preds, steps: &mut Steps<L>)
    requires { Broken set.now q → ⊥ }
    ensures all { (i : ℕ) (m : Step) →
        Contains out.new (record { number = i; mv = m }) ↔ LeadsTo set.now i m q }
    ensures once { HaveDifferentNumbers out.new }
    ensures step { steps.new ≡ steps.old + 1 }
{
    steps.tick();
    out.clear();
    add_all(set, q, &set.boards_of(q), out);
}
