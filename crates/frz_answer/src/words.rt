//! The words after a command's name.
ghost use Rattle.std.specs.Prelude.{◌≡◌, map};
ghost use Rattle.std.specs.Option.{option_map};
ghost use Rattle.std.specs.String.{string_bytes};
ghost use Rattle.frz_answer.specs.Words.{words_line, one_word_of, two_words_of, three_words_of};

/// Why the words of the command line are no command.
#[derive(Clone, Copy, PartialEq, Eq, Drop)]
pub enum Refusal {
    /// The first word is missing or names no command.
    NoCommand,
    /// The command does not take this number of words.
    Count,
    /// Two names that have to differ are equal.
    SameName,
}

impl Refusal {
    /// The line that refuses the words, with its line feed.
    pub fn line(self) -> &'static [u8]
        ensures { result.now ≡ words_line self }
    {
        match self {
            Refusal::NoCommand => b"words: command\n",
            Refusal::Count => b"words: count\n",
            Refusal::SameName => b"words: same name\n",
        }
    }
}

/// The word, where there is just one; else `None`.
pub fn one_word(words: &[String]) -> Option<&str>
    ensures { option_map (λ word. word.now) result ≡ one_word_of (map string_bytes words.now) }
{
    match words {
        [word] => Some(word.as_str()),
        _ => None,
    }
}

/// Both words, where there are just two; else `None`.
pub fn two_words(words: &[String]) -> Option<(&str, &str)>
    ensures { option_map (λ both. (both.0.now, both.1.now)) result
        ≡ two_words_of (map string_bytes words.now) }
{
    match words {
        [first, second] => Some((first.as_str(), second.as_str())),
        _ => None,
    }
}

/// All three words, where there are just three; else `None`.
pub fn three_words(words: &[String]) -> Option<(&str, &str, &str)>
    ensures { option_map (λ all. (all.0.now, all.1.now, all.2.now)) result
        ≡ three_words_of (map string_bytes words.now) }
{
    match words {
        [first, second, third] => Some((first.as_str(), second.as_str(), third.as_str())),
        _ => None,
    }
}
