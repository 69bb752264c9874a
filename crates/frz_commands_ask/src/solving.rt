//! The command `solve RULES FEN`: the bounds of both sides at a position of the rules' set.
ghost use Rattle.std.specs.Prelude.{◌≡◌, map, false};
ghost use Rattle.std.specs.String.{string_bytes};
ghost use Rattle.frz_store.specs.Told.{store_of};
ghost use Rattle.frz_prelude.specs.Replies.{Replies};
ghost use Rattle.frz_commands_ask.specs.Meaning.{solve_words};

use crate::bounds::bounds_by;
use frz_prelude::{Reply, Stop, read_rules_at, take_position, take_two};
use frz_steps::Steps;
use frz_store::Store;
use std::alloc::Global;
use std::sync::ledger::Ledger;

/// The command `solve RULES FEN`; `words` are RULES and FEN. The FEN is read before the rules file.
pub fn solve<S: Store, L: Ledger>(
    alloc: Global,
    words: &[String],
    store: &mut S,
    steps: &mut Steps<L>,
) -> Result<Reply, Stop>
    ensures replies { Replies (solve_words (map string_bytes words.now)) result
        (store_of S.Store store.old) (store_of S.Store store.new) steps.old steps.new }
    ensures store_unused { (solve_words (map string_bytes words.now)).needs.store ≡ false
        → store.new ≡ store.old }
{
    let (rules, fen) = take_two(words)?;
    let p = take_position(fen)?;
    let lines = read_rules_at(alloc, rules, store)?;
    let bounds = bounds_by(alloc, &lines, &p, steps)?;
    Ok(Reply::Bounds(bounds.white, bounds.black))
}
