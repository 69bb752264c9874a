//! Decimal numbers.

ghost use Rattle.std.specs.Prelude.{◌≡◌, ◌≤◌, IfSome};
ghost use Rattle.frz_words.specs.Numbers.{number_of};

/// The value of a word of one to nine decimal digits. None for any other word, and where the value
/// is above `most`.
#[tactic(auto, unfolding(crate::specs::Numbers::number_of))]
pub fn read_number(w: &[u8], most: u32) -> Option<u32>
    ensures value { result ≡ number_of w.now most }
    ensures bound { IfSome result (λ n. n ≤ most) }
{
    if w.is_empty() || w.len() > 9 {
        return None;
    }
    let mut value = 0;
    for digit in w {
        if *digit < b'0' || *digit > b'9' {
            return None;
        }
        value = 10 * value + (*digit - b'0') as u32;
    }
    if value <= most { Some(value) } else { None }
}
