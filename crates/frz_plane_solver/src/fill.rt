//! Planes of all configurations.

ghost use Rattle.std.specs.Prelude.{◌≡◌, ◌≢◌, ◌<◌, ◌+◌, ℕ, length};
ghost use Rattle.frz_arena.specs.declared.node.Node.TheVariants.{Broken};
ghost use Rattle.frz_plane_game.specs.Spots.{HasNumbers, HaveNumbers, plane_at};
ghost use Rattle.frz_plane_solver.specs.Decided.{Decided, DecidedAt};
ghost use Rattle.frz_plane_solver.specs.Marks.{AreFor, IsDecidedTo, marked_planes};

use crate::marked::MarkedPlanes;
use crate::reach::{decided_first, decided_next, may_decide};
use frz_board::Colour;
use frz_plane_game::PlaneGame;
use frz_planes::Plane;

/// Fills the planes with the numbers that are not broken.
pub fn fill_live<G: PlaneGame>(game: &G, planes: &mut [Plane])
    requires sound { G.sound game.now }
    requires many { length planes.old ≡ (G.spots game.now).configurations }
    ensures { HaveNumbers (G.spots game.now) planes.new
        (λ i. (G.arena game.now).node i ≢ Broken) }
{
    for c in 0..game.configurations() {
        planes[c as usize] = game.live(c);
    }
}

/// Fills the planes with the numbers that are decided at once.
pub fn fill_first<G: PlaneGame>(game: &G, side: Colour, win: bool, planes: &mut [Plane])
    requires sound { G.sound game.now }
    requires many { length planes.old ≡ (G.spots game.now).configurations }
    ensures { HaveNumbers (G.spots game.now) planes.new
        (Decided (G.arena game.now) side win 0) }
{
    for c in 0..game.configurations() {
        planes[c as usize] = decided_first(game, side, win, c);
    }
}

/// Fills the plane of the configuration in `more` with its numbers that are decided within one ply
/// more than `plies`, and within no fewer, and marks it if there are any.
fn fill_at<G: PlaneGame>(
    game: &G,
    side: Colour,
    win: bool,
    plies: u32,
    configuration: u32,
    decided: &MarkedPlanes,
    more: &mut MarkedPlanes,
)
    requires sound { G.sound game.now }
    requires inside { configuration < (G.spots game.now).configurations }
    requires decided { IsDecidedTo (G.arena game.now) (G.spots game.now) side win plies
        decided.now }
    requires room { AreFor (G.spots game.now).configurations more.old }
    ensures numbers { HasNumbers (G.spots game.now) configuration
        (plane_at (marked_planes more.new) configuration)
        (DecidedAt (G.arena game.now) side win (plies + 1)) }
    ensures others { (k : ℕ) → k ≢ configuration →
        plane_at (marked_planes more.new) k ≡ plane_at (marked_planes more.old) k }
    ensures size { AreFor (G.spots game.now).configurations more.new }
{
    if may_decide(game, side, win, plies, configuration, &decided.marks) {
        let plane = decided_next(game, side, win, plies, configuration, &decided.planes);
        more.put(configuration, &plane);
    } else {
        more.unmark(configuration);
    }
}

/// Fills `more` with the numbers that are decided within one ply more than `plies`, and within no
/// fewer, and marks their configurations.
pub fn fill_next<G: PlaneGame>(
    game: &G,
    side: Colour,
    win: bool,
    plies: u32,
    decided: &MarkedPlanes,
    more: &mut MarkedPlanes,
)
    requires sound { G.sound game.now }
    requires decided { IsDecidedTo (G.arena game.now) (G.spots game.now) side win plies
        decided.now }
    requires room { AreFor (G.spots game.now).configurations more.old }
    ensures numbers { HaveNumbers (G.spots game.now) (marked_planes more.new)
        (DecidedAt (G.arena game.now) side win (plies + 1)) }
    ensures size { AreFor (G.spots game.now).configurations more.new }
{
    for c in 0..game.configurations() {
        fill_at(game, side, win, plies, c, decided, more);
    }
}
