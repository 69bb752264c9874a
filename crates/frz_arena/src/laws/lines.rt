//! Lines: ways in which both sides play by the codes.

ghost use Rattle.std.specs.Prelude.{◌≡◌, ◌≤◌, ◌+◌, ◌*◌, ℕ, List, length, true};
ghost use Rattle.frz_board.specs.declared.man.Colour.{Colour};
ghost use Rattle.frz_arena.specs.Arena.{IsLawful};
ghost use Rattle.frz_arena.specs.WayEnds.{End, Mated, Exit, Cut, EndsDrawn};
ghost use Rattle.frz_arena.specs.Ways.{Player, Ply, ByCodes, is_line, IsWay};

/// A line from a win of n plies has exactly n plies where it ends in a mate. Where it ends at an
/// exit, its plies and the lag of the exit are n together.
pub fn wins_in_lines<M, N, V, S, R>()
    ensures mate { (player : Player M N V S R) → is_line player.opponent ≡ true →
        (s t : S) (p : N) (xs : List (Ply M N V)) (mover : Colour) (n : ℕ) →
        player.entry p ≡ 2 + 2 * n → IsWay player 0 s p xs (Mated mover) t → length xs ≡ n }
    ensures exit { (player : Player M N V S R) → is_line player.opponent ≡ true →
        (s t : S) (p : N) (xs : List (Ply M N V)) (v : V) (n : ℕ) →
        player.entry p ≡ 2 + 2 * n → IsWay player 0 s p xs (Exit v) t
        → length xs + player.arena.lag v ≡ n }
{}

/// A line from a hold ends with no one mated, and not at an exit that is good or bad for the side.
/// It has at most `most` plies, and exactly so many where it is cut.
pub fn holds_in_lines<M, N, V, S, R>()
    ensures drawn { (player : Player M N V S R) → is_line player.opponent ≡ true →
        (s t : S) (p : N) (xs : List (Ply M N V)) (e : End N V R) →
        player.entry p ≡ 1 → IsWay player 0 s p xs e t → EndsDrawn player.arena player.side e }
    ensures few { (player : Player M N V S R) (most : ℕ) → player.opponent ≡ ByCodes most →
        (s t : S) (p : N) (xs : List (Ply M N V)) (e : End N V R) →
        player.entry p ≡ 1 → IsWay player 0 s p xs e t → length xs ≤ most }
    ensures cut { (player : Player M N V S R) (most : ℕ) → player.opponent ≡ ByCodes most →
        (s t : S) (p : N) (xs : List (Ply M N V)) →
        player.entry p ≡ 1 → IsWay player 0 s p xs Cut t → length xs ≡ most }
{}

/// From each start there is a line with an end, and it leaves the input as it was.
pub fn lines_end<M, N, V, S, R>()
    ensures { (player : Player M N V S R) (most : ℕ) → player.opponent ≡ ByCodes most →
        IsLawful player.arena →
        (s : S) (p : N) → (xs : List (Ply M N V)) × (e : End N V R) × IsWay player 0 s p xs e s }
{}
