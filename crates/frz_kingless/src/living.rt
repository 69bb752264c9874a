//! The pairs at which the numbers of a configuration have positions.

ghost use Rattle.std.specs.Prelude.{◌≡◌, ◌<◌};
ghost use Rattle.frz_sets.specs.Sound.{IsSound};
ghost use Rattle.frz_configurations.specs.Configurations.{configuration_count};
ghost use Rattle.frz_kingless.specs.Boards.{AreLive};

use crate::finding::{board_of, known_pairs};
use frz_configurations::Configurations;
use frz_index::Set;
use frz_king_planes::valid_pairs;
use frz_planes::Plane;

/// The pairs at which a number of the configuration has a position: it is not broken.
pub fn live_pairs(set: &Set, configurations: &Configurations<'_>, configuration: u32) -> Plane
    requires sound { IsSound configurations.now.rules.now }
    requires set { set.now ≡ configurations.now.rules.now.groups }
    requires inside { configuration < configuration_count set.now }
    ensures { AreLive set.now configuration result }
{
    match board_of(set, configurations, configuration) {
        None => Plane::empty(),
        Some(board) => {
            let mut pairs = valid_pairs(&board);
            pairs.cut_with(&known_pairs(set));
            pairs
        }
    }
}
