//! What the game keeps of a configuration.

ghost use Rattle.std.specs.Prelude.{◌≡◌, if◌then◌else◌};

use frz_board::Colour;
use frz_plane_arms::InnerMoves;
use frz_plane_exits::ExitPlane;
use frz_planes::Plane;

/// What the game keeps of a configuration that has positions: who is to move, the steps that stay in
/// the set, the exits of those that leave it, and the pairs at which there is a step, a free step,
/// or a mate.
#[derive(Drop)]
pub struct Row {
    pub turn: Colour,
    pub moves: InnerMoves,
    pub exits: Vec<ExitPlane>,
    pub moving: Plane,
    pub moving_freely: Plane,
    pub mated: Plane,
}

impl Row {
    /// The pairs at which there is a step; a free one, where free steps alone count.
    pub fn moving_by(&self, only_free: bool) -> Plane
        ensures { result ≡ (if only_free then self.now.moving_freely else self.now.moving) }
    {
        if only_free {
            self.moving_freely
        } else {
            self.moving
        }
    }
}
