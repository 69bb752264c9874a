//! The commands `query TABLE FEN` and `chainquery TABLE FEN`: the bounds of both sides at a
//! position, by the codes in a table file.
ghost use Rattle.std.specs.Prelude.{◌≡◌, ℕ, map, false};
ghost use Rattle.std.specs.String.{string_bytes};
ghost use Rattle.frz_store.specs.Told.{store_of};
ghost use Rattle.frz_prelude.specs.Replies.{Replies};
ghost use Rattle.frz_commands_ask.specs.Querying.{querying_words, query_words, chainquery_words};

use crate::kept::kept_codes_at;
use frz_prelude::{Reply, Stop, take_position, take_two};
use frz_store::Store;
use frz_table::FileKind;
use std::alloc::Global;

/// Queries a table file of this kind, or with `None` of the kind as which it begins; `words` are the
/// two words after the command's name, TABLE FEN.
pub fn query_kind<S: Store>(
    alloc: Global,
    kind: Option<FileKind>,
    words: &[String],
    store: &mut S,
) -> Result<Reply, Stop>
    ensures replies { (steps : ℕ) → Replies (querying_words kind (map string_bytes words.now))
        result (store_of S.Store store.old) (store_of S.Store store.new) steps steps }
    ensures store_unused { (querying_words kind (map string_bytes words.now)).needs.store ≡ false
        → store.new ≡ store.old }
{
    let (table, fen) = take_two(words)?;
    let p = take_position(fen)?;
    let codes = kept_codes_at(alloc, table, kind, &p, store)?;
    Ok(Reply::Kept(codes.white, codes.black))
}

/// The command `query TABLE FEN`, on a plain table; `words` are TABLE and FEN.
pub fn query<S: Store>(alloc: Global, words: &[String], store: &mut S) -> Result<Reply, Stop>
    ensures replies { (steps : ℕ) → Replies (query_words (map string_bytes words.now)) result
        (store_of S.Store store.old) (store_of S.Store store.new) steps steps }
    ensures store_unused { (query_words (map string_bytes words.now)).needs.store ≡ false
        → store.new ≡ store.old }
{
    query_kind(alloc, Some(FileKind::Plain), words, store)
}

/// The command `chainquery TABLE FEN`, on a table over a back table; `words` are TABLE and FEN. The
/// back table is not read.
pub fn chainquery<S: Store>(alloc: Global, words: &[String], store: &mut S) -> Result<Reply, Stop>
    ensures replies { (steps : ℕ) → Replies (chainquery_words (map string_bytes words.now)) result
        (store_of S.Store store.old) (store_of S.Store store.new) steps steps }
    ensures store_unused { (chainquery_words (map string_bytes words.now)).needs.store ≡ false
        → store.new ≡ store.old }
{
    query_kind(alloc, Some(FileKind::Chained), words, store)
}
