//! The first table behind the exit lines of another whose set has a position.
ghost use Rattle.std.specs.Prelude.{◌≡◌, ◌≤◌, ◌<◌, ◌+◌, length, map, IfSome};
ghost use Rattle.frz_fide.specs.Valid.{IsValid};
ghost use Rattle.frz_sets.specs.Sound.{IsSound};
ghost use Rattle.frz_atlas.specs.FileOn.{loaded_back};
ghost use Rattle.frz_atlas_prelude.specs.declared.names.TheConstants.{MOST_BACKS};
ghost use Rattle.frz_commands_atlas.specs.FirstBack as words;

use frz_atlas::{BackTable, codes_on};
use frz_exits::{ExitBook, RuleBook, is_unknown};
use frz_fide::Bitboards;
use frz_sets::Rules;

/// The exit lines of a table, and the tables behind them, which are asked where it leans on others.
#[derive(Clone, Copy)]
pub struct Behind<'a> {
    pub leans: bool,
    pub rules: &'a Rules,
    pub backs: &'a [BackTable],
}

/// The first of these tables whose set has the position, by its place, with White's code and
/// Black's in it; the first of them has this place.
fn first_found(place: usize, backs: &[BackTable], q: &Bitboards) -> Option<(usize, (u32, u32))>
    requires valid { IsValid q.now }
    requires few { place + length backs.now ≤ MOST_BACKS }
    ensures found { result ≡ words.first_found place (map loaded_back backs.now) q.now }
    ensures small { IfSome result (λ found. found.0 < MOST_BACKS) }
{
    match backs {
        [] => None,
        [back, rest @ ..] => match codes_on(back, q) {
            Some(codes) => Some((place, codes)),
            None => first_found(place + 1, rest, q),
        },
    }
}

impl Behind<'_> {
    /// The first table behind the exit lines that tells of the position, by its place, from 0, with
    /// White's code and Black's in it.
    pub fn found(&self, q: &Bitboards) -> Option<(usize, (u32, u32))>
        requires valid { IsValid q.now }
        requires sound { IsSound self.now.rules.now }
        requires few { length self.now.backs.now ≤ MOST_BACKS }
        ensures found { result ≡ words.found_behind self.now.leans self.now.rules.now
            (map loaded_back self.now.backs.now) q.now }
        ensures small { IfSome result (λ found. found.0 < MOST_BACKS) }
    {
        if self.leans && is_unknown(RuleBook::new(self.rules).value_on(q)) {
            first_found(0, self.backs, q)
        } else {
            None
        }
    }
}
