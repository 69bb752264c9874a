//! The words that name a table, a position and the tables behind the table.
ghost use Rattle.std.specs.Prelude.{◌≡◌, ◌≤◌, ◌∷◌, length, map, false, IfOk, IfErr, IfSome};
ghost use Rattle.std.specs.Option.{option_map};
ghost use Rattle.std.specs.String.{string_bytes};
ghost use Rattle.frz_atlas_prelude.specs.Given.{AreGiven, AreNotGiven, given_names_of};
ghost use Rattle.frz_atlas_prelude.specs.Names as names;

use crate::names::{MOST_BACKS, has_twice, is_among};
use frz_answer::Refusal;

/// The words TABLE, FEN and BACK ..
#[derive(Clone, Copy)]
pub struct Given<'a> {
    pub table: &'a str,
    pub fen: &'a str,
    pub behind: &'a [String],
}

/// The names that the words give; `None` for fewer than two words, and for more than 16 BACKs.
fn given_names(words: &[String]) -> Option<Given<'_>>
    ensures named { option_map (λ given. record {
      table = given.table.now;
      fen = given.fen.now;
      behind = map string_bytes given.behind.now;
    }) result ≡ given_names_of (map string_bytes words.now) }
    ensures few { IfSome result (λ given. length (map string_bytes given.behind.now) ≤ MOST_BACKS) }
{
    match words {
        [table, fen, behind @ ..] if behind.len() <= MOST_BACKS => Some(Given {
            table: table.as_str(),
            fen: fen.as_str(),
            behind,
        }),
        _ => None,
    }
}

/// Has one of the tables a name that stands twice?
fn is_same_file(given: &Given<'_>) -> bool
    ensures { result ≡ names.has_twice (given.now.table.now ∷ map string_bytes given.now.behind.now) }
{
    is_among(given.table, given.behind) || has_twice(given.behind)
}

/// The names that the words give, where no two of the tables have one name; or why the words are
/// refused.
pub fn names_given(words: &[String]) -> Result<Given<'_>, Refusal>
    ensures named { IfOk result (λ given. AreGiven (map string_bytes words.now) (record {
      table = given.table.now;
      fen = given.fen.now;
      behind = map string_bytes given.behind.now;
    })) }
    ensures apart { IfOk result (λ given. names.has_twice (given.table.now
        ∷ map string_bytes given.behind.now) ≡ false) }
    ensures few { IfOk result (λ given. length (map string_bytes given.behind.now) ≤ MOST_BACKS) }
    ensures refused { IfErr result (AreNotGiven (map string_bytes words.now)) }
{
    match given_names(words) {
        None => Err(Refusal::Count),
        Some(given) if is_same_file(&given) => Err(Refusal::SameName),
        Some(given) => Ok(given),
    }
}
