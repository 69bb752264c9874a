//! The command `check TABLE`: whether a table is exact, or its first entry that is wrong.
ghost use Rattle.std.specs.Prelude.{◌≡◌, map, false};
ghost use Rattle.std.specs.String.{string_bytes};
ghost use Rattle.frz_store.specs.Told.{store_of};
ghost use Rattle.frz_prelude.specs.Replies.{Replies, reply_status, text_of};
ghost use Rattle.frz_commands_table.specs.Checking.{verdict_status, verdict_line};
ghost use Rattle.frz_commands_table.specs.CheckMeans.{check_words};

use crate::judging::{Judged, judge_file};
use frz_check::Verdict;
use frz_prelude::{Reply, Stop, take_one};
use frz_steps::Steps;
use frz_store::Store;
use std::alloc::Global;
use std::sync::ledger::Ledger;

/// The reply on a table that was judged: its size if it is exact, or its first wrong entry.
fn reply_on(judged: Judged) -> Reply
    ensures status { reply_status result ≡ verdict_status judged.verdict }
    ensures text { text_of result ≡ verdict_line judged.size judged.verdict }
{
    match judged.verdict {
        Verdict::Exact => Reply::Exact(judged.size),
        Verdict::Wrong(wrong) => Reply::Wrong(wrong),
    }
}

/// The command `check TABLE`; `words` is TABLE.
pub fn check<S: Store, L: Ledger>(
    alloc: Global,
    words: &[String],
    store: &mut S,
    steps: &mut Steps<L>,
) -> Result<Reply, Stop>
    ensures replies { Replies (check_words (map string_bytes words.now)) result
        (store_of S.Store store.old) (store_of S.Store store.new) steps.old steps.new }
    ensures store_unused { (check_words (map string_bytes words.now)).needs.store ≡ false
        → store.new ≡ store.old }
{
    let table = take_one(words)?;
    let judged = judge_file(alloc, table, store, steps)?;
    Ok(reply_on(judged))
}
