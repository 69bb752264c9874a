//! What each exit line of rules rests on.
ghost use Rattle.std.specs.Prelude.{◌≡◌, ◌≤◌, ◌+◌, [], Bool, List, All, length, map, IfOk};
ghost use Rattle.frz_sets.specs.Sets.{size_of};
ghost use Rattle.frz_sets.specs.Sound.{IsSound};
ghost use Rattle.frz_sets.specs.Views.{RuleLines};
ghost use Rattle.frz_backs.specs.Links.{Link};
ghost use Rattle.frz_premises.specs.Bases.{bases_of};
ghost use Rattle.frz_premises.specs.Needs.{IsTellable};
ghost use Rattle.frz_backs.specs.Loaded.{link_loaded};
ghost use Rattle.frz_premises.specs.Trials.{AreTried};
ghost use Rattle.frz_premises.specs.WaysOut.{outside_of};

use crate::basis::Basis;
use crate::silent::Silent;
use crate::trial::Trial;
use crate::walk::walk;
use frz_backs::BackTable;
use frz_game::Game;
use frz_index::Set;
use frz_sets::{Exit, Rules};
use frz_steps::Steps;
use std::alloc::{AllocError, Global};
use std::sync::ledger::Ledger;

/// The lines of a text, of which none has decided an exit yet, with so many tables.
fn begin(alloc: Global, lines: &[Exit], tables: usize) -> Result<Vec<Trial>, AllocError>
    ensures { IfOk result (λ trials. (leans : Bool) (rules : RuleLines)
        (links : List Link) → rules.exits ≡ lines.now → length links ≡ tables →
        AreTried leans rules links [] trials.items) }
{
    let mut trials = Vec::new(alloc);
    for line in lines {
        let trial = Trial::new(alloc, line.value, tables)?;
        trials.push(trial)?;
    }
    Ok(trials)
}

/// What each line rests on, by all exits.
fn bases(alloc: Global, trials: &[Trial]) -> Result<Vec<Basis>, AllocError>
    ensures { IfOk result (λ bases. (leans : Bool) (rules : RuleLines)
        (links : List Link) → AreTried leans rules links (outside_of rules.groups) trials.now →
        bases.items ≡ bases_of leans rules links) }
{
    let mut bases = Vec::new(alloc);
    for trial in trials {
        bases.push(trial.basis())?;
    }
    Ok(bases)
}

/// What each exit line of the rules rests on, in the order of the text, where these tables may
/// prove lines; their text leans on them or not. Each exit of the set is looked at, by a free move or another; the moves of each
/// number are listed once. The tables are not checked here.
pub fn premises_of<L: Ledger>(
    alloc: Global,
    set: &Set,
    rules: &Rules,
    leans: bool,
    backs: &[BackTable],
    steps: &mut Steps<L>,
) -> Result<Vec<Basis>, AllocError>
    requires sound { IsSound rules.now }
    requires fits { set.now ≡ rules.now.groups }
    ensures bases { IfOk result
        (λ bases. bases.items ≡ bases_of leans rules.now (map link_loaded backs.now)) }
    ensures tellable { IfOk result
        (λ bases. All (IsTellable (length backs.now)) bases.items) }
    ensures steps { steps.new ≤ steps.old + size_of rules.now.groups }
    ensures later { steps.old ≤ steps.new }
{
    let lines = rules.exits.as_slice();
    let mut trials = begin(alloc, lines, backs.len())?;
    let book = Silent;
    let game = Game {
        set,
        rules,
        book: &book,
    };
    walk(&game, leans, backs, &mut trials, steps);
    bases(alloc, &trials)
}
