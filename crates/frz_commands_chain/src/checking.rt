//! The command `chaincheck TABLE BACK`: whether a table is exact over a back table, and the back
//! table exact by itself.
ghost use Rattle.std.specs.Prelude.{◌≡◌, map, false, ℕ};
ghost use Rattle.std.specs.String.{string_bytes};
ghost use Rattle.frz_store.specs.Told.{store_of};
ghost use Rattle.frz_chain.specs.Chains.{CarriesSizes, judgement};
ghost use Rattle.frz_prelude.specs.Replies.{Replies, reply_status, text_of};
ghost use Rattle.frz_commands_chain.specs.Checking.{chain_status, chain_verdict_line};
ghost use Rattle.frz_commands_chain.specs.CheckMeans.{checking_pair, chaincheck_words};

use crate::stopping::stop_of;
use frz_chain::{ChainVerdict, check_chain};
use frz_prelude::{Refused, Reply, Stop, take_two};
use frz_steps::Steps;
use frz_store::Store;
use frz_table::{FileKind, TableFault, open_kind};
use std::alloc::Global;
use std::sync::ledger::Ledger;

/// The reply on a table over a back table: both sizes if it is exact, or its first wrong entry.
fn reply_on(verdict: ChainVerdict) -> Reply
    ensures status { reply_status result ≡ chain_status (judgement verdict) }
    ensures text { (size back : ℕ) → CarriesSizes verdict size back
        → text_of result ≡ chain_verdict_line size back (judgement verdict) }
{
    match verdict {
        ChainVerdict::Exact(size, back) => Reply::ExactOn(size, back),
        ChainVerdict::Wrong(wrong) => Reply::Wrong(wrong),
    }
}

/// Checks a table where TABLE and BACK are the same name. If the file opens as a table over a back
/// table, it is not a plain one, so BACK is refused without reading it again.
fn check_on_itself<S: Store>(alloc: Global, table: &str, store: &mut S) -> Result<Reply, Stop>
    ensures { (steps : ℕ) → Replies (checking_pair table.now table.now) result
        (store_of S.Store store.old) (store_of S.Store store.new) steps steps }
{
    match open_kind(alloc, store, table, FileKind::Chained) {
        Ok(_opened) => Err(Stop::Refused(Refused::Back(TableFault::Magic))),
        Err(fault) => Err(Stop::from(fault)),
    }
}

/// The command `chaincheck TABLE BACK`; `words` are TABLE and BACK.
pub fn chaincheck<S: Store, L: Ledger>(
    alloc: Global,
    words: &[String],
    store: &mut S,
    steps: &mut Steps<L>,
) -> Result<Reply, Stop>
    ensures replies { Replies (chaincheck_words (map string_bytes words.now)) result
        (store_of S.Store store.old) (store_of S.Store store.new) steps.old steps.new }
    ensures store_unused { (chaincheck_words (map string_bytes words.now)).needs.store ≡ false
        → store.new ≡ store.old }
{
    let (table, back) = take_two(words)?;
    if table == back {
        return check_on_itself(alloc, table, store);
    }
    match check_chain(alloc, store, table, back, steps) {
        Ok(verdict) => Ok(reply_on(verdict)),
        Err(fault) => Err(stop_of(fault)),
    }
}
