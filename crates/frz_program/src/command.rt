//! The command that the words of the command line name.
ghost use Rattle.std.specs.Prelude.{◌≡◌, ℕ, List, Option, map};
ghost use Rattle.std.specs.Option.{option_map};
ghost use Rattle.std.specs.String.{string_bytes};
ghost use Rattle.frz_program.specs.Commands.{command_of};

/// Commands that are named by a word.
pub trait Named: Copy {
    /// The command that a word of these bytes names.
    ghost named_by: { List ℕ → Option Self };

    /// The command that the word names, if it names one.
    fn read(word: &str) -> Option<Self>
        ensures { result ≡ named_by word.now };
}

/// The command that the first word names, and the words behind it. `None` without words, or where
/// the first word names no command.
pub fn read_command<C: Named>(words: &[String]) -> Option<(C, &[String])>
    ensures { option_map (λ both. (both.0, map string_bytes both.1.now)) result
        ≡ command_of C.named_by (map string_bytes words.now) }
{
    let (word, rest) = words.split_first()?;
    Some((C::read(word.as_str())?, rest))
}
