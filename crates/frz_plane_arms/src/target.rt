//! The configuration to which a step leads.

ghost use Rattle.std.specs.Prelude.{◌≡◌, ◌<◌, IfSome, MatchOption};
ghost use Rattle.frz_sets.specs.Sound.{IsSound};
ghost use Rattle.frz_configurations.specs.Configurations.{configuration_count};
ghost use Rattle.frz_kingless.specs.Boards.{IsBoardOf};
ghost use Rattle.frz_plane_arms.specs.Arms.{HasNoMember};

use crate::crowning::valid_pair;
use frz_board::Square;
use frz_configurations::Configurations;
use frz_fide::Bitboards;
use frz_index::Set;
use frz_king_planes::with_kings;

/// The configuration of a board without kings. `None` where no kings make a position of the set on
/// it: they make no valid one on squares that groups know, a man has no state of a group, or a group
/// has too few men or too many.
pub fn target_of(set: &Set, configurations: &Configurations<'_>, q: &Bitboards) -> Option<u32>
    requires sound { IsSound configurations.now.rules.now }
    requires set { set.now ≡ configurations.now.rules.now.groups }
    ensures board { MatchOption result (HasNoMember set.now q.now)
        (λ c. IsBoardOf set.now c q.now) }
    ensures inside { IfSome result (λ c. c < configuration_count set.now) }
{
    match valid_pair(set, q) {
        None => None,
        Some((a, b)) => {
            let position = with_kings(q, Square::at(a), Square::at(b));
            match set.number_on(&position) {
                None => None,
                Some(number) => Some(configurations.split(number).configuration),
            }
        }
    }
}
