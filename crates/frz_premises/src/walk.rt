//! The walk over the numbers of a set: each exit is noted with the line that decides it.
ghost use Rattle.std.specs.Prelude.{◌≡◌, ◌≤◌, ◌<◌, ◌+◌, ◌++◌, ◌∷◌, [], List, All, map, true, Some};
ghost use Rattle.frz_board.specs.Boards.{Board};
ghost use Rattle.frz_fide.specs.Legal.{is_legal};
ghost use Rattle.frz_fide.specs.Valid.{IsValid};
ghost use Rattle.frz_sets.specs.Sets.{size_of};
ghost use Rattle.frz_sets.specs.Sound.{IsSound};
ghost use Rattle.frz_backs.specs.Loaded.{link_loaded};
ghost use Rattle.frz_premises.specs.Trials.{AreTried, boards_after};
ghost use Rattle.frz_premises.specs.WaysOut.{outside_below, outside_of};

use crate::silent::Silent;
use crate::trial::Trial;
use frz_backs::{BackTable, line_over};
use frz_bits::Bitboards;
use frz_fide::after;
use frz_game::{Arm, Game, Lists, Next};
use frz_sets::Rules;
use frz_steps::Steps;
use std::sync::ledger::Ledger;

/// Notes an exit with the line that decides it.
fn note(trials: &mut [Trial], leans: bool, rules: &Rules, backs: &[BackTable], q: &Bitboards)
    requires valid { IsValid q.now }
    requires sound { IsSound rules.now }
    requires tried { (qs : List Board)
        × AreTried leans rules.now (map link_loaded backs.now) qs trials.old }
    ensures { (qs : List Board) → AreTried leans rules.now (map link_loaded backs.now) qs trials.old →
        AreTried leans rules.now (map link_loaded backs.now) (qs ++ q.now ∷ []) trials.new }
{
    if let Some(i) = line_over(leans, rules, backs, q) {
        trials[i].note(backs, q);
    }
}

/// Notes a move of a position, if it leads out of the set.
fn note_arm(
    trials: &mut [Trial],
    leans: bool,
    rules: &Rules,
    backs: &[BackTable],
    p: &Bitboards,
    arm: Arm,
)
    requires valid { IsValid p.now }
    requires sound { IsSound rules.now }
    requires legal { is_legal p.now arm.mv ≡ true }
    requires tried { (qs : List Board)
        × AreTried leans rules.now (map link_loaded backs.now) qs trials.old }
    ensures { (qs : List Board) → AreTried leans rules.now (map link_loaded backs.now) qs trials.old →
        AreTried leans rules.now (map link_loaded backs.now) (qs ++ boards_after p.now (arm ∷ []))
        trials.new }
{
    if let Next::Outside(_) = arm.next {
        note(trials, leans, rules, backs, &after(p, arm.mv));
    }
}

/// Notes the moves of a position that lead out of the set.
fn note_all(
    trials: &mut [Trial],
    leans: bool,
    rules: &Rules,
    backs: &[BackTable],
    p: &Bitboards,
    arms: &[Arm],
)
    requires valid { IsValid p.now }
    requires sound { IsSound rules.now }
    requires legal { All (λ a. is_legal p.now a.mv ≡ true) arms.now }
    requires tried { (qs : List Board)
        × AreTried leans rules.now (map link_loaded backs.now) qs trials.old }
    ensures { (qs : List Board) → AreTried leans rules.now (map link_loaded backs.now) qs trials.old →
        AreTried leans rules.now (map link_loaded backs.now) (qs ++ boards_after p.now arms.now)
        trials.new }
{
    for arm in arms {
        note_arm(trials, leans, rules, backs, p, *arm);
    }
}

/// Notes the exits of a number. A broken number has none.
fn look<L: Ledger>(
    game: &Game<'_, Silent>,
    leans: bool,
    backs: &[BackTable],
    number: u32,
    lists: &mut Lists,
    trials: &mut [Trial],
    steps: &mut Steps<L>,
)
    requires sound { IsSound game.now.rules.now }
    requires tried { AreTried leans game.now.rules.now (map link_loaded backs.now)
        (outside_below game.now.rules.now.groups number) trials.old }
    ensures tried { AreTried leans game.now.rules.now (map link_loaded backs.now)
        (outside_below game.now.rules.now.groups (number + 1)) trials.new }
    ensures step { steps.new ≤ steps.old + 1 }
    ensures later { steps.old ≤ steps.new }
{
    if let Some(p) = game.set.boards_at(number) {
        game.nexts_by(number, &mut lists.moves, &mut lists.nexts, steps);
        note_all(trials, leans, game.rules, backs, &p, lists.nexts.as_slice());
    }
}

/// Walks over all numbers, whose moves are listed once, and notes each exit.
pub fn walk<L: Ledger>(
    game: &Game<'_, Silent>,
    leans: bool,
    backs: &[BackTable],
    trials: &mut [Trial],
    steps: &mut Steps<L>,
)
    requires sound { IsSound game.now.rules.now }
    requires tried { AreTried leans game.now.rules.now (map link_loaded backs.now) [] trials.old }
    ensures tried { AreTried leans game.now.rules.now (map link_loaded backs.now)
        (outside_of game.now.rules.now.groups) trials.new }
    ensures steps { steps.new ≤ steps.old + size_of game.now.rules.now.groups }
    ensures later { steps.old ≤ steps.new }
{
    let mut lists = Lists::new();
    for number in 0..game.set.size() {
        look(game, leans, backs, number, &mut lists, trials, steps);
    }
}
