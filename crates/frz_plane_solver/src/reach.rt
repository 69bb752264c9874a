//! The numbers of one configuration that a ply decides.

ghost use Rattle.std.specs.Prelude.{◌≡◌, ◌<◌, ◌+◌, ℕ, length, false, not, if◌then◌else◌};
ghost use Rattle.frz_board.specs.Men.{same_colour};
ghost use Rattle.frz_plane_game.specs.Spots.{HasNumbers, HaveNumbers};
ghost use Rattle.frz_plane_game.specs.Targets.{LeadsInto};
ghost use Rattle.frz_plane_solver.specs.Decided.{Decided, DecidedAt, MovesTo, worth_of};
ghost use Rattle.frz_plane_solver.specs.Marks.{MarksLast};

use frz_board::Colour;
use frz_plane_game::{Exits, PlaneGame, Target};
use frz_planes::Plane;

/// Is the mover the side?
fn is_own(mover: Colour, side: Colour) -> bool
    ensures { result ≡ same_colour mover side }
{
    mover == side
}

/// Does the mover seek it? The side seeks wins, and its opponent failures of the side.
fn seeks(own: bool, win: bool) -> bool
    ensures { result ≡ (if win then own else not own) }
{
    if win { own } else { !own }
}

/// The exits that decide it within a ply more than `plies`.
fn exits_of(win: bool, plies: u32) -> Exits
    ensures { result ≡ worth_of win plies }
{
    if win {
        Exits::Wins(plies)
    } else {
        Exits::Losses
    }
}

/// The numbers of the configuration at which the next ply leads into the target, whoever is to
/// move: one move of who seeks it, or each move of who shuns it. A win is sought by the side.
fn reaching<G: PlaneGame>(game: &G, configuration: u32, target: &Target<'_>, win: bool) -> Plane
    requires sound { G.sound game.now }
    requires inside { configuration < (G.spots game.now).configurations }
    requires many { length target.now.planes.now ≡ (G.spots game.now).configurations }
    ensures { HasNumbers (G.spots game.now) configuration result
        (MovesTo (G.arena game.now) target.now.side win (LeadsInto (G.arena game.now)
        (G.spots game.now) target.now.planes.now target.now.side target.now.exits)) }
{
    let own = is_own(game.mover(configuration), target.side);
    if seeks(own, win) {
        return game.leading(configuration, own, target, true);
    }
    let mut plane = game.moving(configuration, own);
    plane.without(&game.leading(configuration, own, target, false));
    plane
}

/// May one ply more than `plies` decide a number of the configuration? The marks tell in which ones
/// the last ply did. The first one may decide any; a later one only numbers with a move to what the
/// last one decided, or to an exit that wins with a lag of `plies`.
pub fn may_decide<G: PlaneGame>(
    game: &G,
    side: Colour,
    win: bool,
    plies: u32,
    configuration: u32,
    marks: &[bool],
) -> bool
    requires sound { G.sound game.now }
    requires inside { configuration < (G.spots game.now).configurations }
    requires many { length marks.now ≡ (G.spots game.now).configurations }
    requires last { MarksLast (G.arena game.now) (G.spots game.now) side win plies marks.now }
    ensures { result ≡ false → (i : ℕ) → i < (G.spots game.now).numbers →
        ((G.spots game.now).at i).configuration ≡ configuration →
        DecidedAt (G.arena game.now) side win (plies + 1) i → ⊥ }
{
    if plies == 0 {
        return true;
    }
    if game.touches(configuration, marks) {
        return true;
    }
    win && game.wins_out(configuration, side, plies)
}

/// The numbers of the configuration that are decided within one ply more than `plies`, and within
/// no fewer. The planes have those that are decided within `plies`.
pub fn decided_next<G: PlaneGame>(
    game: &G,
    side: Colour,
    win: bool,
    plies: u32,
    configuration: u32,
    planes: &[Plane],
) -> Plane
    requires sound { G.sound game.now }
    requires inside { configuration < (G.spots game.now).configurations }
    requires many { length planes.now ≡ (G.spots game.now).configurations }
    requires planes { HaveNumbers (G.spots game.now) planes.now
        (Decided (G.arena game.now) side win plies) }
    ensures { HasNumbers (G.spots game.now) configuration result
        (DecidedAt (G.arena game.now) side win (plies + 1)) }
{
    let target = Target {
        planes,
        side,
        exits: exits_of(win, plies),
    };
    let mut plane = reaching(game, configuration, &target, win);
    plane.without(&planes[configuration as usize]);
    plane
}

/// The numbers of the configuration that are decided at once: mated, or, for a failure, without a
/// free move.
pub fn decided_first<G: PlaneGame>(game: &G, side: Colour, win: bool, configuration: u32) -> Plane
    requires sound { G.sound game.now }
    requires inside { configuration < (G.spots game.now).configurations }
    ensures { HasNumbers (G.spots game.now) configuration result
        (Decided (G.arena game.now) side win 0) }
{
    let own = is_own(game.mover(configuration), side);
    if seeks(own, win) {
        return Plane::empty();
    }
    let mut plane = game.mated(configuration);
    if !own {
        return plane;
    }
    let mut bound = game.moving(configuration, false);
    bound.without(&game.moving(configuration, true));
    plane.union_with(&bound);
    plane
}
