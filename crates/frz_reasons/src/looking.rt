//! What a number is, with its moves and their codes, where its entry is right.
ghost use Rattle.std.specs.Prelude.{◌≡◌, ◌≤◌, ◌<◌, ◌+◌, length, map};
ghost use Rattle.frz_graph.specs.EntryCodes.{arm_code};
ghost use Rattle.frz_reasons.specs.LocalEntries.{IsSeenAt};

use frz_arena::Node;
use frz_board::Colour;
use frz_game::Wrong;
use frz_graph::laws::{filled, within};
use frz_graph::{Entries, Lists, NumberedGame, fill, local};
use frz_steps::Steps;
use std::sync::ledger::Ledger;

/// Looks at a number: afterwards `lists` has its moves and their codes for the side. The kept code
/// is compared with the local one, and the entry is answered where it is wrong. This takes one step
/// at most.
pub fn look<G: NumberedGame<L>, E: Entries, L: Ledger>(
    game: &G,
    entries: &E,
    side: Colour,
    number: u32,
    lists: &mut Lists,
    steps: &mut Steps<L>,
) -> Result<Node, Wrong>
    requires sound { G.sound game.now }
    requires inside { number < G.count game.now }
    requires many { length (E.codes entries.now side) ≡ G.count game.now }
    ensures seen { IsSeenAt (G.arena game.now) side (E.codes entries.now side) number result }
    ensures arms { lists.new.nexts.items ≡ (G.arena game.now).arms number }
    ensures codes { lists.new.codes.items ≡
        map (arm_code side (E.codes entries.now side)) ((G.arena game.now).arms number) }
    ensures step { steps.new ≤ steps.old + 1 }
    ensures later { steps.old ≤ steps.new }
{
    within();
    filled();
    let node = game.nexts_by(number, lists, steps);
    fill(side, &lists.nexts, entries, &mut lists.codes);
    let kept = entries.entry(side, number);
    let given = local(side, node, &lists.nexts, &lists.codes);
    if u64::from(kept) != given {
        return Err(Wrong {
            side,
            number,
            kept,
            given,
        });
    }
    Ok(node)
}
