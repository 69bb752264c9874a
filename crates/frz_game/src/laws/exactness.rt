//! Tables that are exact in chess.

ghost use Rattle.std.specs.Prelude.{◌≡◌, ◌↔◌, ℕ, List, slice_index};
ghost use Rattle.frz_board.specs.declared.man.Colour.{Colour};
ghost use Rattle.frz_board.specs.declared.man.Colour.TheVariants.{White, Black};
ghost use Rattle.frz_board.specs.Boards.{Board};
ghost use Rattle.frz_board.specs.Men.{other_of};
ghost use Rattle.frz_sets.specs.declared.exit.Value.{Value};
ghost use Rattle.frz_sets.specs.Views.{RuleLines};
ghost use Rattle.frz_index.specs.Members.{Member, Num};
ghost use Rattle.frz_arena.specs.declared.bound.Bound.{Bound};
ghost use Rattle.frz_arena.specs.declared.bound.Bound.TheVariants.{Wins, Fails};
ghost use Rattle.frz_arena.specs.Codes.{code_of};
ghost use Rattle.frz_arena.specs.WholeTruth.{CanForceMate, MatesIn, NoneIsBad, WinsAreKnown, WinsAreCounted, LossesAreKnown};
ghost use Rattle.frz_graph.specs.Books.{value_by};
ghost use Rattle.frz_game.specs.Bounds.{IsBoundAt, IsTableOf};
ghost use Rattle.frz_arena.specs.Exits.{IsExit};
ghost use Rattle.frz_game.specs.KingAndPawn.{king_and_pawn as pawn, pawn_back};
ghost use Rattle.frz_game.specs.KingAndRook.{king_and_rook as rook};
ghost use Rattle.frz_game.specs.ExactTables.{HasNoForbid, AreDecidedOutside, IsLostOutside, HasExactOutcomes, IsExactInChess, HasWinsUpTo, IsLongestMate};
ghost use Rattle.frz_game.specs.ExactBounds.{IsExactBound, HasExactOutcome, MeansExactly, IsExactWhereFree, TableIsExactWhereFree};
ghost use Rattle.frz_game.specs.Games.{chess, game_of};
ghost use Rattle.frz_game.specs.MenAlone.{IsDrawnOutside};
ghost use Rattle.frz_game.specs.OpponentFree.{OfBounds, OfTables};
ghost use Rattle.frz_game.specs.RenouncedRook.{renounced_rook};
ghost use Rattle.frz_game.specs.Values.{AreTrueExits};

/// The table of a side that no line forbids a move. Where its plies to mate just outside the set
/// are counted, a win of n plies stands exactly where it forces mate in n plies and no fewer. Where
/// it is known what it wins and loses there, the outcomes are those of chess; so they are where
/// each value there truly says who wins or that the game is drawn. Where each exit is drawn by the
/// men, the table is exact in chess.
pub fn exact_tables()
    ensures wins { (rules : RuleLines) (value : Board → Value) (side : Colour) (codes : List ℕ) →
        IsTableOf rules value side codes → HasNoForbid rules side →
        WinsAreCounted (game_of rules value) side →
        (p : Board) (n : ℕ) → Member rules.groups p →
        (slice_index codes (Num rules.groups p) ≡ code_of (Wins n)) ↔ MatesIn chess side n p }
    ensures outcomes { (rules : RuleLines) (value : Board → Value) (side : Colour)
        (codes : List ℕ) → IsTableOf rules value side codes → HasNoForbid rules side →
        WinsAreKnown (game_of rules value) side → LossesAreKnown (game_of rules value) side →
        HasExactOutcomes rules side codes }
    ensures decided { (rules : RuleLines) (value : Board → Value) (side : Colour)
        (codes : List ℕ) → IsTableOf rules value side codes → HasNoForbid rules side →
        AreTrueExits rules value → AreDecidedOutside rules value →
        HasExactOutcomes rules side codes }
    ensures drawn { (rules : RuleLines) (value : Board → Value) (side : Colour) (codes : List ℕ) →
        IsTableOf rules value side codes → HasNoForbid rules side → IsDrawnOutside rules value →
        IsExactInChess rules side codes }
{}

/// What the bounds and the table of a side that no line forbids a move say of chess, both ways, as
/// `MeansExactly` and `TableMeansExactly` state it.
pub fn exact_where_free()
    ensures bound { (rules : RuleLines) (value : Board → Value) (side : Colour) (p : Board)
        (b : Bound) → Member rules.groups p → IsBoundAt rules value side p b →
        IsExactWhereFree rules value side p b }
    ensures table { (rules : RuleLines) (value : Board → Value) (side : Colour) (codes : List ℕ) →
        IsTableOf rules value side codes → TableIsExactWhereFree rules value side codes }
{}

/// A counterexample where a side does not move freely: White renounces all moves but those of the
/// rook to g1 and g8. Each exit is drawn by the men, and no line forbids Black a move. But at one
/// position White mates in one ply, and his bound is a failure; at another he mates in one ply, and
/// his bound is a win within three.
pub fn freedom_renounced()
    ensures drawn { IsDrawnOutside renounced_rook (value_by renounced_rook) }
    ensures opponent { HasNoForbid renounced_rook Black }
    ensures none { (p : Board) × Member renounced_rook.groups p × MatesIn chess White 1 p
        × IsBoundAt renounced_rook (value_by renounced_rook) White p (Fails 0) }
    ensures slower { (p : Board) × Member renounced_rook.groups p × MatesIn chess White 1 p
        × IsBoundAt renounced_rook (value_by renounced_rook) White p (Wins 3) }
{}

/// The condition that no line forbids the side a move is needed: each field of `MeansExactly` is
/// false in general where that condition is asked of the opponent in place of the side, or of
/// neither.
pub fn bounds_need_freedom()
    ensures drawn { OfBounds (λ rules value side p b. IsDrawnOutside rules value →
        IsExactBound side p b) → ⊥ }
    ensures decided { OfBounds (λ rules value side p b. AreTrueExits rules value →
        AreDecidedOutside rules value → HasExactOutcome side p b) → ⊥ }
    ensures win { OfBounds (λ rules value side p b. AreTrueExits rules value →
        NoneIsBad (game_of rules value) (other_of side) → (n : ℕ) → b ≡ Wins n →
        MatesIn chess side n p) → ⊥ }
    ensures lost { OfBounds (λ rules value side p b. AreTrueExits rules value →
        IsLostOutside rules value side → (m : ℕ) → b ≡ Fails m →
        CanForceMate chess (other_of side) p) → ⊥ }
    ensures lost_in { OfBounds (λ rules value side p b. AreTrueExits rules value →
        NoneIsBad (game_of rules value) side → (m : ℕ) → b ≡ Fails m →
        MatesIn chess (other_of side) m p) → ⊥ }
{}

/// The condition is needed for tables too: each field of `TableMeansExactly` is false in general
/// where it is asked of the opponent in place of the side, or of neither.
pub fn tables_need_freedom()
    ensures drawn { OfTables (λ rules value side codes. IsDrawnOutside rules value →
        IsExactInChess rules side codes) → ⊥ }
    ensures decided { OfTables (λ rules value side codes. AreTrueExits rules value →
        AreDecidedOutside rules value → HasExactOutcomes rules side codes) → ⊥ }
    ensures bound { OfTables (λ rules value side codes. (p : Board) (b : Bound) →
        Member rules.groups p → slice_index codes (Num rules.groups p) ≡ code_of b →
        MeansExactly rules value side p b) → ⊥ }
{}

/// Where the table of a side is exact in chess, its greatest code of a win gives the plies of the
/// longest mate in the set.
pub fn longest_mate()
    ensures { (rules : RuleLines) (value : Board → Value) (side : Colour) (codes : List ℕ) →
        IsTableOf rules value side codes → IsExactInChess rules side codes →
        (p : Board) (n : ℕ) → Member rules.groups p →
        slice_index codes (Num rules.groups p) ≡ code_of (Wins n) → HasWinsUpTo codes n →
        IsLongestMate rules side n }
{}

/// The table of king and rook against king is exact in chess, for both sides.
pub fn king_and_rook()
    ensures { (side : Colour) (codes : List ℕ) →
        IsTableOf rook (value_by rook) side codes → IsExactInChess rook side codes }
{}

/// Each exit of the set of king and pawn against king is a position of `pawn_back`: the bare kings,
/// or the kings and what the pawn may become.
pub fn king_and_pawn()
    ensures { (value : Board → Value) (q : Board) → IsExit (game_of pawn value) q →
        Member pawn_back.groups q }
{}
