//! The names that the words of a command give: a file, and the tables behind it.
ghost use Rattle.std.specs.Prelude.{◌≡◌, ◌≤◌, ◌∷◌, length, map, false, IfOk, IfErr, IfSome};
ghost use Rattle.std.specs.List.{list_any};
ghost use Rattle.std.specs.Option.{option_map};
ghost use Rattle.std.specs.Str.{bytes_eq};
ghost use Rattle.std.specs.String.{string_bytes};
ghost use Rattle.frz_atlas_prelude.specs.Names as names;
ghost use Rattle.frz_atlas_prelude.specs.Names.{AreDifferent, DoNotName};
ghost use Rattle.frz_atlas_prelude.specs.Names.{build_names_of, file_names_of};

use frz_answer::Refusal;

/// The most tables that may stand behind a table.
pub const MOST_BACKS: usize = 16;

/// The file's name, and the 0 to 16 names of the tables behind it; `None` for any other number.
fn file_names(words: &[String]) -> Option<(&str, &[String])>
    ensures named { option_map (λ all. (all.0.now, map string_bytes all.1.now)) result
        ≡ file_names_of (map string_bytes words.now) }
    ensures words_are { IfSome result (λ all. map string_bytes words.now
        ≡ all.0.now ∷ map string_bytes all.1.now) }
    ensures few { IfSome result (λ all. length (map string_bytes all.1.now) ≤ MOST_BACKS) }
{
    match words {
        [file, behind @ ..] if behind.len() <= MOST_BACKS => Some((file.as_str(), behind)),
        _ => None,
    }
}

/// The rules file's name, the table's name, and the 0 to 16 names of the tables behind it; `None`
/// for any other number.
pub fn build_names(words: &[String]) -> Option<(&str, &str, &[String])>
    ensures named { option_map (λ all. (all.0.now, (all.1.now, map string_bytes all.2.now))) result
        ≡ build_names_of (map string_bytes words.now) }
    ensures words_are { IfSome result (λ all. map string_bytes words.now
        ≡ all.0.now ∷ all.1.now ∷ map string_bytes all.2.now) }
    ensures few { IfSome result (λ all. length (map string_bytes all.2.now) ≤ MOST_BACKS) }
{
    match words {
        [rules, rest @ ..] => match file_names(rest) {
            Some((table, behind)) => Some((rules.as_str(), table, behind)),
            None => None,
        },
        [] => None,
    }
}

/// Is the name among these?
pub fn is_among(name: &str, names: &[String]) -> bool
    ensures { result ≡ list_any (λ other. bytes_eq other name.now) (map string_bytes names.now) }
{
    match names {
        [] => false,
        [other, rest @ ..] => other.as_str() == name || is_among(name, rest),
    }
}

/// Does a name stand twice among these?
pub fn has_twice(words: &[String]) -> bool
    ensures { result ≡ names.has_twice (map string_bytes words.now) }
{
    match words {
        [] => false,
        [first, rest @ ..] => is_among(first.as_str(), rest) || has_twice(rest),
    }
}

/// The file's name and the 0 to 16 names of the tables behind it, no two of which are the same; or
/// why the words are refused.
pub fn names_with_backs(words: &[String]) -> Result<(&str, &[String]), Refusal>
    ensures named { IfOk result (λ all. AreDifferent (map string_bytes words.now)
        all.0.now (map string_bytes all.1.now)) }
    ensures apart { IfOk result (λ all. names.has_twice (all.0.now ∷ map string_bytes all.1.now)
        ≡ false) }
    ensures few { IfOk result (λ all. length (map string_bytes all.1.now) ≤ MOST_BACKS) }
    ensures refused { IfErr result (DoNotName (map string_bytes words.now)) }
{
    match file_names(words) {
        Some(names) if !has_twice(words) => Ok(names),
        Some(_) => Err(Refusal::SameName),
        None => Err(Refusal::Count),
    }
}
