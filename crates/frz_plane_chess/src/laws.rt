//! What holds of the game over a set's numbers, seen by planes, whatever the code.

ghost use Rattle.std.specs.Prelude.{◌≡◌, ◌≢◌, ◌<◌, ◌↔◌, ◌⊎◌, ℕ, Bool, List, true, Some, IsTrue};
ghost use Rattle.frz_board.specs.declared.man.Colour.{Colour};
ghost use Rattle.frz_board.specs.Attacks.{is_in_check};
ghost use Rattle.frz_board.specs.Boards.{Board};
ghost use Rattle.frz_board.specs.Moving.{Step};
ghost use Rattle.frz_fide.specs.Listing.{legal_moves_of};
ghost use Rattle.frz_sets.specs.declared.exit.Value.{Value};
ghost use Rattle.frz_sets.specs.Sets.{size_of};
ghost use Rattle.frz_sets.specs.Sound.{IsSound};
ghost use Rattle.frz_sets.specs.Views.{RuleLines};
ghost use Rattle.frz_arena.specs.declared.arm.Arm.{Arm};
ghost use Rattle.frz_arena.specs.declared.arm.Next.TheVariants.{Inside, Outside};
ghost use Rattle.frz_arena.specs.declared.node.Node.TheVariants.{Broken};
ghost use Rattle.frz_arena.specs.Arena.{IsArm};
ghost use Rattle.frz_arena.specs.Games.{node_by};
ghost use Rattle.frz_index.specs.Members.{Member, Num};
ghost use Rattle.frz_index.specs.Membership.{position_at};
ghost use Rattle.frz_configurations.specs.Configurations.{IsSplit};
ghost use Rattle.frz_king_planes.specs.Kings.{with_kings};
ghost use Rattle.frz_kingless.specs.Boards.{AreLive, IsBoardOf};
ghost use Rattle.frz_plane_arms.specs.Arms.{MakesMember};
ghost use Rattle.frz_plane_arms.specs.Inside.{LeadsInside};
ghost use Rattle.frz_game.specs.Games.{graph_by};
ghost use Rattle.frz_plane_game.specs.declared.target.Exits.{Exits};
ghost use Rattle.frz_plane_game.specs.Spots.{AreSpots, HasNumbers};
ghost use Rattle.frz_plane_game.specs.Targets.{LeadsInto, SomeMove};
ghost use Rattle.frz_plane_chess.specs.Spots.{spot_of, spots_of};
ghost use Rattle.frz_plane_chess.specs.Steps.{IsMove, LeavesTo, next_at};

/// Each number of a sound set stands at the pair of its kings' squares, in the plane of its
/// configuration.
pub fn spots()
    ensures split { (r : RuleLines) (i c a b : ℕ) → IsSound r → i < size_of r.groups →
        IsSplit r.groups i c a b
        ↔ (spot_of r.groups i ≡ record { configuration = c; white = a; black = b }) }
    ensures placed { (r : RuleLines) → IsSound r → AreSpots (spots_of r.groups) }
{}

/// The live pairs of a configuration are its numbers that are not broken.
pub fn live()
    ensures { (r : RuleLines) (value : Board → Value) (c : ℕ) (plane : List ℕ) → IsSound r →
        AreLive r.groups c plane → HasNumbers (spots_of r.groups) c plane
        (λ i. (graph_by r value).node i ≢ Broken) }
{}

/// A number of a configuration has the position that its kings make on the configuration's board,
/// or none where they make no position of the set.
pub fn nodes()
    ensures position { (r : RuleLines) (p q : Board) (i c a b : ℕ) → IsSound r →
        IsBoardOf r.groups c p → IsSplit r.groups i c a b → position_at r.groups i ≡ Some q →
        q ≡ with_kings p a b }
    ensures there { (r : RuleLines) (value : Board → Value) (p : Board) (i c a b : ℕ) → IsSound r →
        IsBoardOf r.groups c p → IsSplit r.groups i c a b → MakesMember r.groups p a b →
        (graph_by r value).node i ≡ node_by true (legal_moves_of (with_kings p a b))
        (is_in_check (with_kings p a b) p.turn) p.turn }
    ensures broken { (r : RuleLines) (value : Board → Value) (p : Board) (i c a b : ℕ) → IsSound r →
        IsBoardOf r.groups c p → IsSplit r.groups i c a b → (MakesMember r.groups p a b → ⊥) →
        (graph_by r value).node i ≡ Broken }
{}

/// The moves of a number are the legal steps with its kings on the board of its configuration.
pub fn moves()
    ensures inside { (r : RuleLines) (value : Board → Value) (q : Board) → Member r.groups q →
        next_at r value q ≡ Inside (Num r.groups q) }
    ensures outside { (r : RuleLines) (value : Board → Value) (q : Board) →
        (Member r.groups q → ⊥) → next_at r value q ≡ Outside (value q) }
    ensures arms { (r : RuleLines) (value : Board → Value) (p : Board) (i c a b : ℕ) → IsSound r →
        IsBoardOf r.groups c p → IsSplit r.groups i c a b → (arm : Arm Step ℕ Value) →
        IsArm (graph_by r value) i arm
        ↔ (MakesMember r.groups p a b × IsMove r value (with_kings p a b) arm) }
{}

/// A move of a number leads into planes or out to exits of a worth, or elsewhere, exactly where a
/// step stays in the set and leads so, or leaves it and leads so.
pub fn leading()
    ensures { (r : RuleLines) (value : Board → Value) (p : Board) (i c a b : ℕ) → IsSound r →
        IsBoardOf r.groups c p → IsSplit r.groups i c a b → (only_free into : Bool)
        (planes : List (List ℕ)) (side : Colour) (exits : Exits) →
        SomeMove (graph_by r value) only_free i (λ next. IsTrue into
        ↔ LeadsInto (graph_by r value) (spots_of r.groups) planes side exits next)
        ↔ (MakesMember r.groups p a b × (LeadsInside r p only_free into planes a b
        ⊎ LeavesTo r value p only_free into side exits a b)) }
{}
