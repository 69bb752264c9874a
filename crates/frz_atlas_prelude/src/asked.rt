//! The words that ask a table for a position and a side, over the tables behind it.
ghost use Rattle.std.specs.Prelude.{◌≡◌, ◌≤◌, ◌∷◌, length, map, false, IfOk, IfErr, IfSome};
ghost use Rattle.std.specs.Option.{option_map};
ghost use Rattle.std.specs.String.{string_bytes};
ghost use Rattle.frz_atlas_prelude.specs.Asked.{AreAsked, AreNotAsked, asked_names_of};
ghost use Rattle.frz_atlas_prelude.specs.Names as names;

use crate::names::{MOST_BACKS, has_twice, is_among};
use frz_answer::Refusal;

/// The words TABLE, FEN, SIDE and BACK ..
#[derive(Clone, Copy)]
pub struct Asked<'a> {
    pub table: &'a str,
    pub fen: &'a str,
    pub side: &'a str,
    pub behind: &'a [String],
}

/// The names that the words give; `None` for fewer than three words and `fewest` BACKs, and for more
/// than 16.
fn given_names(words: &[String], fewest: usize) -> Option<Asked<'_>>
    ensures named { option_map (λ asked. record {
      table = asked.table.now;
      fen = asked.fen.now;
      side = asked.side.now;
      behind = map string_bytes asked.behind.now;
    }) result ≡ asked_names_of fewest (map string_bytes words.now) }
    ensures few { IfSome result (λ asked. length (map string_bytes asked.behind.now) ≤ MOST_BACKS) }
{
    match words {
        [table, fen, side, behind @ ..] if fewest <= behind.len() && behind.len() <= MOST_BACKS => {
            Some(Asked {
                table: table.as_str(),
                fen: fen.as_str(),
                side: side.as_str(),
                behind,
            })
        }
        _ => None,
    }
}

/// Has the table a name that stands twice?
fn is_same_file(asked: &Asked<'_>) -> bool
    ensures { result ≡ names.has_twice (asked.now.table.now ∷ map string_bytes asked.now.behind.now) }
{
    is_among(asked.table, asked.behind) || has_twice(asked.behind)
}

/// The names that the words give, with at least `fewest` BACKs and at most 16, where no two of the
/// tables have one name; or why the words are refused.
pub fn asked_names(words: &[String], fewest: usize) -> Result<Asked<'_>, Refusal>
    ensures named { IfOk result (λ asked. AreAsked fewest (map string_bytes words.now) (record {
      table = asked.table.now;
      fen = asked.fen.now;
      side = asked.side.now;
      behind = map string_bytes asked.behind.now;
    })) }
    ensures apart { IfOk result (λ asked. names.has_twice (asked.table.now
        ∷ map string_bytes asked.behind.now) ≡ false) }
    ensures few { IfOk result (λ asked. length (map string_bytes asked.behind.now) ≤ MOST_BACKS) }
    ensures refused { IfErr result (AreNotAsked fewest (map string_bytes words.now)) }
{
    match given_names(words, fewest) {
        None => Err(Refusal::Count),
        Some(asked) if is_same_file(&asked) => Err(Refusal::SameName),
        Some(asked) => Ok(asked),
    }
}
