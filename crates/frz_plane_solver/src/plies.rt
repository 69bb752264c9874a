//! One ply, and the first.

ghost use Rattle.std.specs.Prelude.{◌≡◌, ◌≢◌, ◌≤◌, ◌<◌, ◌+◌, ◌*◌, ℕ, length, slice_index, true, false};
ghost use Rattle.frz_arena.specs.declared.node.Node.TheVariants.{Broken};
ghost use Rattle.frz_sweep.specs.Told.{AreTold};
ghost use Rattle.frz_plane_solver.specs.Decided.{ArePut, Decided, DecidedAt, decided_code};
ghost use Rattle.frz_plane_solver.specs.Marks.{AreAllMarked, AreFor, IsDecidedTo};
ghost use Rattle.frz_plane_solver.specs.Walks.{IsSolvedTo};

use crate::fill::{fill_first, fill_live, fill_next};
use crate::marked::MarkedPlanes;
use crate::settle::settle_all;
use frz_board::Colour;
use frz_plane_game::PlaneGame;

/// The code of a win or a failure within so many plies.
fn code(win: bool, plies: u32) -> u32
    requires { plies ≤ 1000000000 }
    ensures { result ≡ decided_code win plies }
{
    if win { 2 + 2 * plies } else { 3 + 2 * plies }
}

/// Adds what one ply more than `plies` decides, and puts the codes. `more` is room to work in. The
/// answer is whether anything is added.
fn add_ply<G: PlaneGame>(
    game: &G,
    side: Colour,
    win: bool,
    plies: u32,
    decided: &mut MarkedPlanes,
    more: &mut MarkedPlanes,
    codes: &mut [u32],
) -> bool
    requires sound { G.sound game.now }
    requires few { plies < 1000000000 }
    requires room { AreFor (G.spots game.now).configurations more.old }
    requires many { length codes.old ≡ (G.spots game.now).numbers }
    requires decided { IsDecidedTo (G.arena game.now) (G.spots game.now) side win plies
        decided.old }
    ensures decided { IsDecidedTo (G.arena game.now) (G.spots game.now) side win (plies + 1)
        decided.new }
    ensures room { AreFor (G.spots game.now).configurations more.new }
    ensures put { ArePut (λ i. (i < (G.spots game.now).numbers)
        × DecidedAt (G.arena game.now) side win (plies + 1) i)
        (decided_code win (plies + 1)) codes.old codes.new }
    ensures none { result ≡ false → (i : ℕ) → i < (G.spots game.now).numbers →
        DecidedAt (G.arena game.now) side win (plies + 1) i → ⊥ }
    ensures some { result ≡ true → (i : ℕ) × (i < (G.spots game.now).numbers)
        × DecidedAt (G.arena game.now) side win (plies + 1) i }
{
    fill_next(game, side, win, plies, decided, more);
    settle_all(game, more, code(win, plies + 1), codes);
    decided.join(more);
    more.has_any()
}

/// Fills the planes, all of which are marked, with what is decided at once, and puts the codes.
fn add_first<G: PlaneGame>(
    game: &G,
    side: Colour,
    win: bool,
    decided: &mut MarkedPlanes,
    codes: &mut [u32],
)
    requires sound { G.sound game.now }
    requires size { AreFor (G.spots game.now).configurations decided.old }
    requires marked { AreAllMarked (G.spots game.now).configurations decided.old }
    requires many { length codes.old ≡ (G.spots game.now).numbers }
    ensures decided { IsDecidedTo (G.arena game.now) (G.spots game.now) side win 0 decided.new }
    ensures put { ArePut (λ i. (i < (G.spots game.now).numbers)
        × Decided (G.arena game.now) side win 0 i)
        (decided_code win 0) codes.old codes.new }
{
    fill_first(game, side, win, &mut decided.planes);
    settle_all(game, decided, code(win, 0), codes);
}

/// Puts the code 1 at each number that is not broken. The planes, all of which are marked, are room
/// to work in.
fn add_live<G: PlaneGame>(game: &G, room: &mut MarkedPlanes, codes: &mut [u32])
    requires sound { G.sound game.now }
    requires size { AreFor (G.spots game.now).configurations room.old }
    requires marked { AreAllMarked (G.spots game.now).configurations room.old }
    requires many { length codes.old ≡ (G.spots game.now).numbers }
    ensures size { AreFor (G.spots game.now).configurations room.new }
    ensures put { ArePut (λ i. (i < (G.spots game.now).numbers)
        × ((G.arena game.now).node i ≢ Broken)) 1 codes.old codes.new }
{
    fill_live(game, &mut room.planes);
    settle_all(game, room, 1, codes);
}

/// The planes and codes of what is decided at once, from codes that are all 0 and planes that are
/// all marked. `more` is room to work in.
pub fn begin<G: PlaneGame>(
    game: &G,
    side: Colour,
    won: &mut MarkedPlanes,
    lost: &mut MarkedPlanes,
    more: &mut MarkedPlanes,
    codes: &mut [u32],
)
    requires sound { G.sound game.now }
    requires won { AreFor (G.spots game.now).configurations won.old
        × AreAllMarked (G.spots game.now).configurations won.old }
    requires lost { AreFor (G.spots game.now).configurations lost.old
        × AreAllMarked (G.spots game.now).configurations lost.old }
    requires room { AreFor (G.spots game.now).configurations more.old
        × AreAllMarked (G.spots game.now).configurations more.old }
    requires many { length codes.old ≡ (G.spots game.now).numbers }
    requires zero { (i : ℕ) → slice_index codes.old i ≡ 0 }
    ensures solved { IsSolvedTo (G.arena game.now) (G.spots game.now) side 0 won.new lost.new
        codes.new }
    ensures room { AreFor (G.spots game.now).configurations more.new }
{
    add_live(game, more, codes);
    add_first(game, side, true, won, codes);
    add_first(game, side, false, lost, codes);
}

/// The planes and codes one ply on. The answer is whether anything is added.
pub fn advance<G: PlaneGame>(
    game: &G,
    side: Colour,
    plies: u32,
    won: &mut MarkedPlanes,
    lost: &mut MarkedPlanes,
    more: &mut MarkedPlanes,
    codes: &mut [u32],
) -> bool
    requires sound { G.sound game.now }
    requires few { plies < 1000000000 }
    requires room { AreFor (G.spots game.now).configurations more.old }
    requires solved { IsSolvedTo (G.arena game.now) (G.spots game.now) side plies won.old lost.old
        codes.old }
    ensures solved { IsSolvedTo (G.arena game.now) (G.spots game.now) side (plies + 1) won.new
        lost.new codes.new }
    ensures room { AreFor (G.spots game.now).configurations more.new }
    ensures same { result ≡ false → AreTold (G.arena game.now) side (plies + 1) codes.new }
    ensures late { result ≡ true → (i : ℕ) × (2 + 2 * (plies + 1) ≤ slice_index codes.new i) }
{
    let wins = add_ply(game, side, true, plies, won, more, codes);
    let fails = add_ply(game, side, false, plies, lost, more, codes);
    wins || fails
}
