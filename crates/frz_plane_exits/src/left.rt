//! Boards that steps leave.

ghost use Rattle.std.specs.Prelude.{ℕ, ◌≡◌, true, false};
ghost use Rattle.frz_sets.specs.Sound.{IsSound};
ghost use Rattle.frz_kingless.specs.Boards.{IsBoardOf};
ghost use Rattle.frz_plane_arms.specs.Arms.{HasNoMember};
ghost use Rattle.frz_plane_exits.specs.Leaving.{IsLeft};

use frz_configurations::Configurations;
use frz_fide::Bitboards;
use frz_index::Set;
use frz_king_planes::valid_pairs;
use frz_plane_arms::target_of;
use frz_planes::Plane;

/// What is known of a board without kings that a step leaves: the pairs of its valid positions, and
/// whether it is the board of a configuration.
#[derive(Clone, Copy)]
pub(crate) struct Left {
    pub valid: Plane,
    pub is_inside: bool,
}

/// Is the board that of a configuration?
pub(crate) fn has_configuration(
    set: &Set,
    configurations: &Configurations<'_>,
    q: &Bitboards,
) -> bool
    requires sound { IsSound configurations.now.rules.now }
    requires set { set.now ≡ configurations.now.rules.now.groups }
    ensures inside { result ≡ true →
        (c : ℕ) × IsBoardOf configurations.now.rules.now.groups c q.now }
    ensures outside { result ≡ false → HasNoMember configurations.now.rules.now.groups q.now }
{
    target_of(set, configurations, q).is_some()
}

pub(crate) fn left_of(set: &Set, configurations: &Configurations<'_>, q: &Bitboards) -> Left
    requires sound { IsSound configurations.now.rules.now }
    requires set { set.now ≡ configurations.now.rules.now.groups }
    ensures { IsLeft configurations.now.rules.now.groups q.now result }
{
    Left {
        valid: valid_pairs(q),
        is_inside: has_configuration(set, configurations, q),
    }
}
