//! The parts of a text between separators.

ghost use Rattle.std.specs.Prelude.{◌≡◌, ◌<◌, ◌≤◌, ◌==◌, ◌∷◌, [], MatchOption, IfSome, length};
ghost use Rattle.std.specs.List.{position};
ghost use Rattle.frz_words.specs.Parts.{split};

fn place_of(text: &[u8], separator: u8) -> Option<usize>
    ensures { result ≡ position (λ b. b == separator) text.now }
{
    text.iter().position(|b| *b == separator)
}

/// The part before the first separator, and what follows it. None where there is no separator.
#[tactic(auto, using(crate::proofs::Splitting::splitting))]
pub fn cut(text: &[u8], separator: u8) -> Option<(&[u8], &[u8])>
    ensures parts { MatchOption result (split (λ b. b == separator) text.now ≡ text.now ∷ [])
        (λ r. split (λ b. b == separator) text.now
        ≡ r.0.now ∷ split (λ b. b == separator) r.1.now) }
    ensures shorter { IfSome result (λ r. length r.1.now < length text.now) }
    ensures short { IfSome result (λ r. length r.0.now ≤ length text.now) }
    ensures more { IfSome result (λ r. 0 < length (split (λ b. b == separator) r.1.now)) }
{
    match place_of(text, separator) {
        None => None,
        Some(place) => Some((&text[..place], &text[place + 1..])),
    }
}
