//! The fields of a FEN text.

ghost use Rattle.std.specs.Prelude.{◌≡◌, ◌∷◌, [], MatchOption, option_map};
ghost use Rattle.frz_fen.specs.Fields.{fields, named_fields as names_of};

use frz_words::cut;

/// The fields of a FEN text, as slices of it. The halfmove clock and the fullmove number are both
/// there or both missing.
#[derive(Clone, Copy)]
pub struct Fields<'a> {
    pub placement: &'a [u8],
    pub turn: &'a [u8],
    pub castling: &'a [u8],
    pub target: &'a [u8],
    pub halfmove: Option<&'a [u8]>,
    pub fullmove: Option<&'a [u8]>,
}

/// The four or six fields of a text, separated by one or more spaces; `None` where there are fewer
/// than four, five, or more than six.
#[tactic(auto, using(crate::proofs::Fielding::naming))]
pub fn named_fields(text: &[u8]) -> Option<Fields<'_>>
    ensures { MatchOption result (names_of text.now ≡ None) (λ f. names_of text.now ≡ Some (record {
      placement = f.placement.now;
      turn = f.turn.now;
      castling = f.castling.now;
      target = f.target.now;
      halfmove = option_map (λ t. t.now) f.halfmove;
      fullmove = option_map (λ t. t.now) f.fullmove;
    })) }
{
    let (placement, rest) = next_field(text)?;
    let (turn, rest) = next_field(rest)?;
    let (castling, rest) = next_field(rest)?;
    let (target, rest) = next_field(rest)?;
    let mut found = Fields {
        placement,
        turn,
        castling,
        target,
        halfmove: None,
        fullmove: None,
    };
    match next_field(rest) {
        None => Some(found),
        Some((halfmove, rest)) => {
            let (fullmove, rest) = next_field(rest)?;
            found.halfmove = Some(halfmove);
            found.fullmove = Some(fullmove);
            match next_field(rest) {
                None => Some(found),
                Some(_) => None,
            }
        }
    }
}

/// The first field of the text, and what follows it; `None` where there is no field.
#[tactic(auto, using(crate::proofs::Fielding::fielding))]
fn next_field(text: &[u8]) -> Option<(&[u8], &[u8])>
    ensures { MatchOption result (fields text.now ≡ [])
        (λ r. fields text.now ≡ r.0.now ∷ fields r.1.now) }
{
    let mut rest = text;
    while let Some((part, after)) = cut(rest, b' ') {
        if !part.is_empty() {
            return Some((part, after));
        }
        rest = after;
    }
    if rest.is_empty() {
        None
    } else {
        Some((rest, &[]))
    }
}
