//! Codes put at the numbers of planes.

ghost use Rattle.std.specs.Prelude.{◌≡◌, ◌<◌, ℕ, length, true};
ghost use Rattle.frz_planes.specs.Planes.{has_pair};
ghost use Rattle.frz_plane_game.specs.Spots.{IsSpot, plane_at};
ghost use Rattle.frz_plane_solver.specs.Decided.{ArePut};
ghost use Rattle.frz_plane_solver.specs.Marks.{AreFor, marked_planes};
ghost use Rattle.frz_plane_solver.specs.Walks.{IsIn};

use crate::marked::MarkedPlanes;
use frz_plane_game::PlaneGame;
use frz_planes::Plane;

/// Puts the code at each number of the plane of a configuration.
fn settle<G: PlaneGame>(game: &G, configuration: u32, plane: &Plane, code: u32, codes: &mut [u32])
    requires sound { G.sound game.now }
    requires many { length codes.old ≡ (G.spots game.now).numbers }
    requires only { (a b : ℕ) → a < 64 → b < 64 → has_pair plane.now a b ≡ true →
        IsSpot (G.spots game.now) configuration a b }
    ensures { let spots = G.spots game.now in
        ArePut (λ i. (i < spots.numbers) × ((spots.at i).configuration ≡ configuration)
        × (has_pair plane.now (spots.at i).white (spots.at i).black ≡ true))
        code codes.old codes.new }
{
    let mut from: u16 = 0;
    while let Some((a, b)) = plane.next_pair(from) {
        let i = game.number(configuration, a, b);
        codes[i as usize] = code;
        from = 64 * u16::from(a) + u16::from(b) + 1;
    }
}

/// Puts the code at each number of the plane of the configuration, if that is marked.
fn settle_marked<G: PlaneGame>(
    game: &G,
    configuration: u32,
    marked: &MarkedPlanes,
    code: u32,
    codes: &mut [u32],
)
    requires sound { G.sound game.now }
    requires inside { configuration < (G.spots game.now).configurations }
    requires size { AreFor (G.spots game.now).configurations marked.now }
    requires many { length codes.old ≡ (G.spots game.now).numbers }
    requires only { (a b : ℕ) → a < 64 → b < 64 →
        has_pair (plane_at (marked_planes marked.now) configuration) a b ≡ true →
        IsSpot (G.spots game.now) configuration a b }
    ensures { let spots = G.spots game.now in
        let plane = plane_at (marked_planes marked.now) configuration in
        ArePut (λ i. (i < spots.numbers) × ((spots.at i).configuration ≡ configuration)
        × (has_pair plane (spots.at i).white (spots.at i).black ≡ true))
        code codes.old codes.new }
{
    let i = configuration as usize;
    if !marked.marks[i] {
        return;
    }
    settle(game, configuration, &marked.planes[i], code, codes);
}

/// Puts the code at each number of the marked planes.
pub fn settle_all<G: PlaneGame>(game: &G, marked: &MarkedPlanes, code: u32, codes: &mut [u32])
    requires sound { G.sound game.now }
    requires size { AreFor (G.spots game.now).configurations marked.now }
    requires many { length codes.old ≡ (G.spots game.now).numbers }
    requires only { (c a b : ℕ) → c < (G.spots game.now).configurations → a < 64 → b < 64 →
        has_pair (plane_at (marked_planes marked.now) c) a b ≡ true →
        IsSpot (G.spots game.now) c a b }
    ensures { ArePut (IsIn (G.spots game.now) (marked_planes marked.now)) code codes.old codes.new }
{
    for c in 0..game.configurations() {
        settle_marked(game, c, marked, code, codes);
    }
}
