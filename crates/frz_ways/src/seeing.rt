//! What a player by codes sees at a number: its moves, their codes, and what is due there.
//! Lines and sessions share this module.
ghost use Rattle.std.specs.Prelude.{◌≡◌, ◌≤◌, ◌<◌, ◌+◌, ◌*◌, ℕ, List, length, map, IfOk, OnOk};
ghost use Rattle.frz_store.specs.Outside.{StoreCauses};
ghost use Rattle.frz_store.specs.Told.{StoreQuiet};
ghost use Rattle.frz_graph.specs.EntryCodes.{arm_code};
ghost use Rattle.frz_ways.specs.Costs.{arms_reads};
ghost use Rattle.frz_ways.specs.Kept.{MayRead};
ghost use Rattle.frz_ways.specs.Reads.{HasDifferentArms};
ghost use Rattle.frz_ways.specs.Turns.{due_at, late_by};

use crate::due::{Due, what_is_due};
use crate::end::LINE_LIMIT;
use crate::kept_codes::KeptCodes;
use crate::opponent::{Opponent, Player};
use crate::playing::Cursor;
use frz_graph::laws::within;
use frz_graph::{Lists, NumberedGame, local};
use frz_steps::Steps;
use frz_store::StoreFault;
use std::sync::ledger::Ledger;

/// Is a way from a hold cut after so many plies? A session never is.
fn is_late(opponent: Opponent, played: u32) -> bool
    ensures { result ≡ late_by opponent played }
{
    match opponent {
        Opponent::Codes => LINE_LIMIT <= played,
        Opponent::Input => false,
    }
}

/// What is due at the cursor. It takes one step to list the moves of the number, and reads the
/// codes of those that stay inside the set. Afterwards `lists` has the moves and their codes.
pub fn inspect<G: NumberedGame<L>, T: KeptCodes<S>, S, L: Ledger>(
    game: &G,
    table: &T,
    store: &mut S,
    player: Player,
    cursor: Cursor,
    lists: &mut Lists,
    steps: &mut Steps<L>,
) -> Result<Due, StoreFault>
    requires sound { G.sound game.now }
    requires inside { cursor.number < G.count game.now }
    requires many { T.size table.now ≡ G.count game.now }
    requires different { HasDifferentArms (G.arena game.now) }
    requires ready { T.is_ready table.now (T.told store.old).files }
    ensures due { IfOk result (λ due. due ≡ due_at (G.arena game.now) player.opponent player.side
        cursor lists.new.nexts.items lists.new.codes.items) }
    ensures arms { OnOk result (lists.new.nexts.items ≡ (G.arena game.now).arms cursor.number) }
    ensures read { OnOk result (length lists.new.codes.items ≡ length lists.new.nexts.items) }
    ensures codes { OnOk result ((codes : List ℕ)
        × MayRead (T.known table.now (T.told store.old).files player.side) (T.size table.now) codes
        × (lists.new.codes.items ≡ map (arm_code player.side codes) lists.new.nexts.items)) }
    ensures quiet { StoreQuiet (T.told store.old) (T.told store.new) }
    ensures asked { (T.told store.new).asked ≤
        (T.told store.old).asked + 4 * arms_reads ((G.arena game.now).arms cursor.number) }
    ensures calls { (T.told store.new).calls ≤
        (T.told store.old).calls + arms_reads ((G.arena game.now).arms cursor.number) }
    ensures causes { StoreCauses (T.told store.old).faults (T.told store.new).faults
        (T.told store.old).wants (T.told store.new).wants result }
    ensures step { steps.new ≤ steps.old + 1 }
    ensures later { steps.old ≤ steps.new }
{
    within();
    let node = game.nexts_by(cursor.number, lists, steps);
    table.read(store, player.side, &lists.nexts, &mut lists.codes)?;
    let given = local(player.side, node, &lists.nexts, &lists.codes);
    Ok(what_is_due(
        node,
        cursor.code,
        given,
        cursor.played == 0,
        is_late(player.opponent, cursor.played),
    ))
}
