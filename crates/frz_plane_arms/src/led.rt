//! The pairs at which steps of men lead to pairs of planes, or to others.

ghost use Rattle.std.specs.Prelude.{ℕ, ◌≡◌, ◌<◌, ◌↔◌, true, length};
ghost use Rattle.std.specs.List.{All};
ghost use Rattle.frz_board.specs.Boards.{Board};
ghost use Rattle.frz_sets.specs.Sound.{IsSound};
ghost use Rattle.frz_sets.specs.Views.{RuleLines};
ghost use Rattle.frz_planes.specs.Planes.{has_pair};
ghost use Rattle.frz_kingless.specs.Boards.{AreLive, IsBoardOf};
ghost use Rattle.frz_plane_arms.specs.Arms.{MakesMember};
ghost use Rattle.frz_plane_arms.specs.MenArms.{AreAllLive, AreArms, ManLeads};

use crate::leading::leading_pairs;
use crate::men::ManArm;
use frz_planes::Plane;

/// The pairs at which a legal step of a man leads to a pair of the plane of its configuration, or to
/// another where `into` is false. The arms are those of the configuration whose live pairs `live`
/// has; `lives` has the live pairs of all configurations. With `only_free` the steps that forbid
/// lines cover do not count.
pub fn leading_men(
    arms: &[ManArm],
    only_free: bool,
    live: &Plane,
    lives: &[Plane],
    planes: &[Plane],
    into: bool,
) -> Plane
    requires inside { All (λ arm. arm.target < length lives.now) arms.now }
    requires many { length planes.now ≡ length lives.now }
    ensures { (r : RuleLines) (p : Board) (c : ℕ) → IsSound r → IsBoardOf r.groups c p →
        AreLive r.groups c live.now → AreArms r p arms.now →
        AreAllLive r.groups lives.now → (a b : ℕ) → a < 64 → b < 64 →
        (has_pair result a b ≡ true)
        ↔ (MakesMember r.groups p a b × ManLeads r only_free p planes.now into a b) }
{
    let mut pairs = Plane::empty();
    for arm in arms {
        if arm.counts(only_free) {
            let target = arm.target as usize;
            let led = leading_pairs(arm.step, live, &lives[target], &planes[target], into);
            pairs.union_with(&led);
        }
    }
    pairs
}
