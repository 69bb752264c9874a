//! What a solver by planes asks of a restricted game.

ghost use Rattle.std.specs.Prelude.{◌≡◌, ◌≢◌, ◌≤◌, ◌<◌, ◌↔◌, ℕ, ⊤, length, false, IsTrue};
ghost use Rattle.frz_board.specs.Moving.{Step};
ghost use Rattle.frz_board.specs.declared.man.Colour.{Colour as ColourSpec};
ghost use Rattle.frz_sets.specs.declared.exit.Value.{Value};
ghost use Rattle.frz_arena.specs.declared.node.Node.TheVariants.{Broken, Mate};
ghost use Rattle.frz_arena.specs.Arena.{Arena};
ghost use Rattle.frz_arena.specs.Plies.{LagsWithin};
ghost use Rattle.frz_graph.specs.Finite.{IsFinite};
ghost use Rattle.frz_plane_game.specs.Spots.{AreSpots, HasNumbers, IsSpot, IsTurnOf, Spots};
ghost use Rattle.frz_plane_game.specs.Targets.{LeadsInto, LeadsToMarked, NoMoveLeads, SomeMove, WinsOut};

use crate::target::Target;
use frz_board::Colour;
use frz_planes::Plane;

/// A restricted game over numbers, each of which stands at a pair of a plane: the plane of its
/// configuration, at the squares of its kings.
pub trait PlaneGame {
    /// What each number is, and its moves.
    ghost arena: { Self → Arena Step ℕ Value };

    /// Where the numbers stand.
    ghost spots: { Self → Spots };

    /// Who is to move in a configuration.
    ghost turn: { Self → ℕ → ColourSpec };

    /// What the answers of the game rest on.
    ghost sound: { Self → Type 0 };

    /// How many numbers there are.
    fn size(&self) -> u32
        requires { sound self.now }
        ensures { result ≡ (spots self.now).numbers };

    /// How many configurations there are.
    fn configurations(&self) -> u32
        requires { sound self.now }
        ensures { result ≡ (spots self.now).configurations };

    /// The number of a configuration with the kings on these squares.
    fn number(&self, configuration: u32, white: u8, black: u8) -> u32
        requires sound { sound self.now }
        requires there { IsSpot (spots self.now) configuration white black }
        ensures inside { result < (spots self.now).numbers }
        ensures spot { (spots self.now).at result
            ≡ record { configuration = configuration; white = white; black = black } };

    /// Who is to move in the configuration.
    fn mover(&self, configuration: u32) -> Colour
        requires sound { sound self.now }
        requires inside { configuration < (spots self.now).configurations }
        ensures { result ≡ turn self.now configuration };

    /// The numbers of the configuration that are not broken.
    fn live(&self, configuration: u32) -> Plane
        requires sound { sound self.now }
        requires inside { configuration < (spots self.now).configurations }
        ensures { HasNumbers (spots self.now) configuration result
            (λ i. (arena self.now).node i ≢ Broken) };

    /// The numbers of the configuration at which the side to move is mated.
    fn mated(&self, configuration: u32) -> Plane
        requires sound { sound self.now }
        requires inside { configuration < (spots self.now).configurations }
        ensures { HasNumbers (spots self.now) configuration result
            (λ i. (arena self.now).node i ≡ Mate (turn self.now configuration)) };

    /// The numbers of the configuration that have a move, or a free move where free moves alone
    /// count.
    fn moving(&self, configuration: u32, only_free: bool) -> Plane
        requires sound { sound self.now }
        requires inside { configuration < (spots self.now).configurations }
        ensures { HasNumbers (spots self.now) configuration result
            (λ i. SomeMove (arena self.now) only_free i (λ _. ⊤)) };

    /// The numbers of the configuration of which a move leads into the target, or elsewhere where
    /// `into` is false; a free move, where free moves alone count.
    fn leading(&self, configuration: u32, only_free: bool, target: &Target<'_>, into: bool) -> Plane
        requires sound { sound self.now }
        requires inside { configuration < (spots self.now).configurations }
        requires many { length target.now.planes.now ≡ (spots self.now).configurations }
        ensures { HasNumbers (spots self.now) configuration result
            (λ i. SomeMove (arena self.now) only_free i (λ next. IsTrue into
            ↔ LeadsInto (arena self.now) (spots self.now) target.now.planes.now target.now.side
            target.now.exits next)) };

    /// May a move of the configuration lead to one of the marked configurations?
    fn touches(&self, configuration: u32, marks: &[bool]) -> bool
        requires sound { sound self.now }
        requires inside { configuration < (spots self.now).configurations }
        requires many { length marks.now ≡ (spots self.now).configurations }
        ensures { result ≡ false → NoMoveLeads (arena self.now) (spots self.now) configuration
            (LeadsToMarked (spots self.now) marks.now) };

    /// May a move of the configuration lead out to an exit that wins for the side, with this lag
    /// and no other?
    fn wins_out(&self, configuration: u32, side: Colour, lag: u32) -> bool
        requires sound { sound self.now }
        requires inside { configuration < (spots self.now).configurations }
        ensures { result ≡ false → NoMoveLeads (arena self.now) (spots self.now) configuration
            (WinsOut (arena self.now) side lag) };

    /// At least the lag of each exit that wins for the side, in plies.
    fn greatest_lag(&self, side: Colour) -> u32
        requires { sound self.now }
        ensures within { LagsWithin (arena self.now) side result }
        ensures small { result ≤ 1000 };

    ghost finite: { (game : Self) → sound game → IsFinite (arena game) (spots game).numbers };

    ghost placed: { (game : Self) → sound game → AreSpots (spots game) };

    ghost turns: { (game : Self) → sound game → (i : ℕ) → i < (spots game).numbers →
        IsTurnOf (turn game ((spots game).at i).configuration) ((arena game).node i) };
}
