//! The bounds of both sides at a position, by the solver that goes forward.
ghost use Rattle.std.specs.Prelude.{◌≡◌, ◌≤◌, IfOk};
ghost use Rattle.frz_sets.specs.Sound.{IsSound};
ghost use Rattle.frz_fide.specs.Valid.{IsValid};
ghost use Rattle.frz_index.specs.Members.{Member, Num};
ghost use Rattle.frz_exits.specs.Books.{value_by};
ghost use Rattle.frz_game.specs.Bounds.{IsBoundAt};
ghost use Rattle.frz_commands_ask.specs.Solving.{Solves, AreFound};

use frz_board::{Colour, NoMemory, Position};
use frz_exits::RuleBook;
use frz_game::{Bound, Game, bound_of};
use frz_index::Set;
use frz_prelude::{Stop, number_in};
use frz_sets::Rules;
use frz_steps::Steps;
use frz_sweep::sweep;
use std::alloc::Global;
use std::sync::ledger::Ledger;

/// The bounds of both sides.
#[derive(Clone, Copy)]
pub struct Bounds {
    pub white: Bound,
    pub black: Bound,
}

/// The bound of a side at the position with this number.
fn bound_at<L: Ledger>(
    alloc: Global,
    rules: &Rules,
    set: &Set,
    p: &Position,
    i: u32,
    side: Colour,
    steps: &mut Steps<L>,
) -> Result<Bound, NoMemory>
    requires sound { IsSound rules.now }
    requires set { set.now ≡ rules.now.groups }
    requires member { Member rules.now.groups p.now }
    requires number { i ≡ Num rules.now.groups p.now }
    ensures later { steps.old ≤ steps.new }
    ensures bound { IfOk result
        (λ bound. IsBoundAt rules.now (value_by rules.now) side p.now bound) }
{
    let book = RuleBook::new(rules);
    let game = Game {
        set,
        rules,
        book: &book,
    };
    let codes = sweep(alloc, &game, side, steps)?;
    match bound_of(codes[i as usize]) {
        Some(bound) => Ok(bound),
        None => unreachable!(),
    }
}

/// The bounds of both sides at the position with this number.
fn bounds_at<L: Ledger>(
    alloc: Global,
    rules: &Rules,
    set: &Set,
    p: &Position,
    i: u32,
    steps: &mut Steps<L>,
) -> Result<Bounds, NoMemory>
    requires sound { IsSound rules.now }
    requires set { set.now ≡ rules.now.groups }
    requires member { Member rules.now.groups p.now }
    requires number { i ≡ Num rules.now.groups p.now }
    ensures later { steps.old ≤ steps.new }
    ensures bounds { IfOk result
        (λ bounds. Solves rules.now (value_by rules.now) p.now bounds.white bounds.black) }
{
    let white = bound_at(alloc, rules, set, p, i, Colour::White, steps)?;
    let black = bound_at(alloc, rules, set, p, i, Colour::Black, steps)?;
    Ok(Bounds { white, black })
}

/// The bounds of both sides at a position of the rules' set. A position outside the set is refused.
pub fn bounds_by<L: Ledger>(
    alloc: Global,
    rules: &Rules,
    p: &Position,
    steps: &mut Steps<L>,
) -> Result<Bounds, Stop>
    requires sound { IsSound rules.now }
    requires valid { IsValid p.now }
    ensures later { steps.old ≤ steps.new }
    ensures found { AreFound rules.now p.now result }
{
    let set = Set::new(alloc, rules)?;
    let i = number_in(&set, p)?;
    Ok(bounds_at(alloc, rules, &set, p, i, steps)?)
}
