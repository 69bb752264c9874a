//! Ways: the plies that a side plays by its codes, in a line or in a session, and their end.

ghost use Rattle.std.specs.Prelude.{◌≡◌, ◌↔◌, ◌≤◌, ◌+◌, ◌*◌, ◌⊎◌, ◌≢◌, ℕ, List, [], map, length, slice_get, suc, true, Some};
ghost use Rattle.std.specs.List.{Contains};
ghost use Rattle.frz_board.specs.declared.man.Colour.{Colour};
ghost use Rattle.frz_arena.specs.declared.node.Node.TheVariants.{Broken, Going};
ghost use Rattle.frz_arena.specs.declared.arm.Arm.{Arm};
ghost use Rattle.frz_arena.specs.declared.arm.Next.TheVariants.{Inside, Outside};
ghost use Rattle.frz_arena.specs.Arena.{Arena, IsLawful};
ghost use Rattle.frz_board.specs.Men.{other_of};
ghost use Rattle.frz_arena.specs.Chess.{NeverForcesMate};
ghost use Rattle.frz_arena.specs.declared.choice.Choice.{Choice};
ghost use Rattle.frz_arena.specs.Choices.{has_code, choice_of};
ghost use Rattle.frz_arena.specs.Codes.{is_win};
ghost use Rattle.frz_arena.specs.Exits.{TrueExits};
ghost use Rattle.frz_arena.specs.Games.{Game, arena_of};
ghost use Rattle.frz_arena.specs.LocalCodes.{local_code, MeetsEquations};
ghost use Rattle.frz_arena.specs.Names.{Numbering, IsNumbering, numbers_of};
ghost use Rattle.frz_arena.specs.Tables.{IsTable};
ghost use Rattle.frz_arena.specs.Chosen.{IsFound, IsChosen};
ghost use Rattle.frz_arena.specs.Turns.{IsClosed};
ghost use Rattle.frz_arena.specs.WayEnds.{End, Wrong, Exit, EndsWon, EndsHeld};
ghost use Rattle.frz_arena.specs.WayCases.{Played, Way};
ghost use Rattle.frz_arena.specs.Ways.{Player, Opponent, Ply, is_by_codes, IsTaken, IsWay, IsPlyOf, table_player};

/// A way by the named cases is a way by recursion over its plies, and a ply is played by its cases
/// where it is taken.
pub fn ways_by_cases<M, N, V, S, R>()
    ensures plies { (player : Player M N V S R) (s t : S) (x : Ply M N V) →
        Played player s x t ↔ IsTaken player s x t }
    ensures ways { (player : Player M N V S R) (k : ℕ) (s t : S) (p : N) (xs : List (Ply M N V))
        (e : End N V R) →
        Way player k s p xs e t ↔ IsWay player k s p xs e t }
{}

/// A way is unique: its start and the input determine its plies, its end, and what is left of the
/// input.
pub fn one_way<M, N, V, S, R>()
    ensures { (player : Player M N V S R) (k : ℕ) (s t u : S) (p : N) (xs ys : List (Ply M N V))
        (e f : End N V R) →
        IsWay player k s p xs e t → IsWay player k s p ys f u →
        (xs ≡ ys) × (e ≡ f) × (t ≡ u) }
{}

/// Where the code kept for a position is its local code, and a win or a hold, it asks for exactly
/// one arm. A choice among the moves as the mover sees them has that arm's place.
pub fn arms_are_found<M, N, V>()
    ensures there { (arena : Arena M N V) → IsLawful arena →
        (side : Colour) (entry : N → ℕ) (mover : Colour) (p : N) →
        arena.node p ≡ Going mover → entry p ≡ local_code arena side entry p →
        (is_win (entry p) ≡ true) ⊎ (entry p ≡ 1) →
        (i : ℕ) × (a : Arm M N V) × IsChosen arena side entry mover p i a }
    ensures one { (arena : Arena M N V) (side : Colour) (entry : N → ℕ) (mover : Colour)
        (p : N) (i j : ℕ) (a b : Arm M N V) →
        IsChosen arena side entry mover p i a → IsChosen arena side entry mover p j b → (i ≡ j)
        × (a ≡ b) }
    ensures choice { (arena : Arena M N V) (side : Colour) (entry : N → ℕ) (mover : Colour)
        (p : N) (i : ℕ) (x : Choice) →
        IsFound has_code (is_win (entry p)) (entry p)
        (map (choice_of arena side entry mover) (arena.arms p)) i x →
        (a : Arm M N V) × IsChosen arena side entry mover p i a }
{}

/// At each ply of a way the kept code is the local one, and the ply is a move of the position, free
/// where the side moves. From a win it leads to a win of at least one ply less, and from a hold
/// never to a failure.
pub fn plies_keep<M, N, V, S, R>()
    ensures { (player : Player M N V S R) (s t : S) (p : N) (xs : List (Ply M N V))
        (e : End N V R) →
        IsWay player 0 s p xs e t → (x : Ply M N V) → Contains xs x → IsPlyOf player x }
{}

/// A way from a win of n plies has at most n plies, with the lag of its exit counted. It ends with
/// the opponent mated or at an exit that wins, unless a code is wrong or the input stops it.
pub fn wins_are_kept<M, N, V, S, R>()
    ensures few { (player : Player M N V S R) (s t : S) (p : N) (xs : List (Ply M N V))
        (e : End N V R) (n : ℕ) →
        player.entry p ≡ 2 + 2 * n → IsWay player 0 s p xs e t → length xs ≤ n }
    ensures ends { (player : Player M N V S R) (s t : S) (p : N) (xs : List (Ply M N V))
        (e : End N V R) (n : ℕ) →
        player.entry p ≡ 2 + 2 * n → IsWay player 0 s p xs e t
        → EndsWon player.arena player.side e }
    ensures exit { (player : Player M N V S R) (s t : S) (p : N) (xs : List (Ply M N V)) (v : V)
        (n : ℕ) →
        player.entry p ≡ 2 + 2 * n → IsWay player 0 s p xs (Exit v) t
        → length xs + player.arena.lag v ≤ n }
{}

/// A way from a hold does not end with the side mated, nor at an exit that is bad for it.
pub fn holds_are_kept<M, N, V, S, R>()
    ensures { (player : Player M N V S R) (s t : S) (p : N) (xs : List (Ply M N V))
        (e : End N V R) →
        player.entry p ≡ 1 → IsWay player 0 s p xs e t → EndsHeld player.arena player.side e }
{}

/// Where each code is its local one, no way from a position that is not broken ends at a wrong
/// code. With the table of the bounds, no way from the number of a position does.
pub fn right_codes<M, N, V, S, R>()
    ensures codes { (player : Player M N V S R) → IsClosed player.arena →
        MeetsEquations player.arena player.side player.entry →
        (s t : S) (p : N) (xs : List (Ply M N V)) (q : N) (kept given : ℕ) →
        player.arena.node p ≢ Broken →
        IsWay player 0 s p xs (Wrong q kept given) t → ⊥ }
    ensures table { (numbers : Numbering N) (arena : Arena M N V) → IsNumbering numbers arena →
        IsLawful arena →
        IsClosed arena → (side : Colour) (codes : List ℕ) → IsTable numbers arena side codes →
        (opponent : Opponent ℕ S R) (p : N) (i : ℕ) → numbers.number p ≡ Some i →
        (s t : S) (xs : List (Ply M ℕ V)) (j kept given : ℕ) →
        IsWay (table_player numbers arena side codes opponent) 0 s i xs (Wrong j kept given) t → ⊥ }
{}

/// In the arena of a game no arm leads to a broken position, nor does one in the arena of its
/// numbers.
pub fn games_are_closed<P, M, V>()
    ensures game { (game : Game P M V) → IsClosed (arena_of game) }
    ensures numbers { (game : Game P M V) (numbers : Numbering P) →
        IsNumbering numbers (arena_of game) →
        IsClosed (numbers_of numbers (arena_of game)) }
{}

/// Where the values of the exits are true, the opponent cannot force mate after any ply of a way by
/// the table.
pub fn ways_are_safe<P, M, V, S, R>()
    ensures { (game : Game P M V) → TrueExits game → (numbers : Numbering P) →
        IsNumbering numbers (arena_of game) →
        (side : Colour) (codes : List ℕ) → IsTable numbers (arena_of game) side codes →
        (opponent : Opponent ℕ S R) (s t : S) (i : ℕ) (xs : List (Ply M ℕ V)) (e : End ℕ V R) →
        IsWay (table_player numbers (arena_of game) side codes opponent) 0 s i xs e t →
        (x : Ply M ℕ V) → Contains xs x →
        (p : P) (m : M) → numbers.at x.from ≡ Some p →
        slice_get (game.chess.moves p) x.place ≡ Some m →
        NeverForcesMate game.chess (other_of side) (game.chess.play p m) }
{}

/// The plies of a way follow each other: the first is from the start, each leads to the position of
/// the next, and an exit is where the last one leads. A win stays a win, of at least one ply less;
/// a hold stays one where the codes find the ply.
pub fn plies_follow<M, N, V, S, R>()
    ensures first { (player : Player M N V S R) (s t : S) (p : N) (xs : List (Ply M N V))
        (e : End N V R) →
        IsWay player 0 s p xs e t → (x : Ply M N V) → slice_get xs 0 ≡ Some x → x.from ≡ p }
    ensures next { (player : Player M N V S R) (s t : S) (p : N) (xs : List (Ply M N V))
        (e : End N V R) →
        IsWay player 0 s p xs e t → (i : ℕ) (x y : Ply M N V) →
        slice_get xs i ≡ Some x → slice_get xs (suc i) ≡ Some y → x.arm.next ≡ Inside y.from }
    ensures exit { (player : Player M N V S R) (s t : S) (p : N) (xs : List (Ply M N V)) (v : V) →
        IsWay player 0 s p xs (Exit v) t →
        (x : Ply M N V) × ((i : ℕ) × (suc i ≡ length xs) × (slice_get xs i ≡ Some x))
        × (x.arm.next ≡ Outside v) }
    ensures win { (player : Player M N V S R) (s t : S) (p : N) (xs : List (Ply M N V))
        (e : End N V R) →
        IsWay player 0 s p xs e t → (i : ℕ) (x y : Ply M N V) →
        slice_get xs i ≡ Some x → slice_get xs (suc i) ≡ Some y →
        is_win (player.entry x.from) ≡ true →
        (is_win (player.entry y.from) ≡ true) × (player.entry y.from + 2 ≤ player.entry x.from) }
    ensures hold { (player : Player M N V S R) (s t : S) (p : N) (xs : List (Ply M N V))
        (e : End N V R) →
        IsWay player 0 s p xs e t → (i : ℕ) (x y : Ply M N V) →
        slice_get xs i ≡ Some x → slice_get xs (suc i) ≡ Some y →
        is_by_codes player x.mover ≡ true →
        player.entry x.from ≡ 1 → player.entry y.from ≡ 1 }
{}

/// Each ply of a way by a table is a legal move at the position
/// of its number, free as its arm says.
pub fn plies_are_moves<P, M, V, S, R>()
    ensures { (game : Game P M V) (numbers : Numbering P) (side : Colour) (codes : List ℕ)
        (opponent : Opponent ℕ S R)
        (s t : S) (i : ℕ) (xs : List (Ply M ℕ V)) (e : End ℕ V R) →
        IsWay (table_player numbers (arena_of game) side codes opponent) 0 s i xs e t →
        (x : Ply M ℕ V) → Contains xs x →
        (p : P) × (m : M) × (numbers.at x.from ≡ Some p)
        × (slice_get (game.chess.moves p) x.place ≡ Some m)
        × (game.free p m ≡ x.arm.free) }
{}

/// A way from code 0 has no plies and ends at once, at a wrong code. From a hold without a move to
/// code 1 a way goes to code 0, and so ends there.
pub fn zero_is_wrong<M, N, V, S, R>()
    ensures { (player : Player M N V S R) (k : ℕ) (s t : S) (p : N) (xs : List (Ply M N V))
        (e : End N V R) →
        player.entry p ≡ 0 → IsWay player k s p xs e t → (xs ≡ [])
        × ((given : ℕ) × (e ≡ Wrong p 0 given)) }
{}
