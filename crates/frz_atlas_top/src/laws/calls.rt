//! Laws on one call after another. Each function does nothing: its clauses are the laws.
ghost use Rattle.std.specs.Prelude.{◌≡◌, ℕ, List, [], ◌∷◌};
ghost use Rattle.frz_answer.specs.declared.status.Status.TheVariants.{Success, Fen, Outside};
ghost use Rattle.frz_answer.specs.Statuses.{OneOf};
ghost use Rattle.frz_answer.specs.Answers.{Answer};
ghost use Rattle.frz_store.specs.Files.{Files};
ghost use Rattle.frz_atlas_top.specs.Calls.{build, check, query, Succeeds, TellsBoundsOver, TellsSolvedOver};
ghost use Rattle.frz_atlas_top.specs.Commands.{job_of};

/// After `check` has ended with status 0, `query` of the same file tells the bounds of both sides,
/// and refuses only a bad FEN or a position outside the set. Exits have the values of the table's
/// exit lines, and of the tables behind where these say nothing.
pub fn asked_after_check()
    ensures query { (table : List ℕ) (behind : List (List ℕ)) (fen : List ℕ) (files : Files)
        (a b : Answer) →
        Succeeds (check table behind) files a → Succeeds (query table fen) files b →
        TellsBoundsOver table behind fen files b.text }
    ensures query_status { (table : List ℕ) (behind : List (List ℕ)) (fen : List ℕ)
        (files : Files) (input : List ℕ) (a b : Answer) →
        Succeeds (check table behind) files a →
        (job_of (query table fen)).answers files input b →
        OneOf b.status (Success ∷ Fen ∷ Outside ∷ []) }
{}

/// Over the files that `build` leaves with status 0, `check` of its table and the tables behind it
/// ends with status 0, and `query` tells the bounds of both sides, in the game of the rules file.
pub fn after_build()
    ensures check { (rules table : List ℕ) (behind : List (List ℕ)) (files : Files)
        (input : List ℕ) (a b : Answer) →
        Succeeds (build rules table behind) files a →
        (job_of (check table behind)).answers a.files input b → b.status ≡ Success }
    ensures query { (rules table : List ℕ) (behind : List (List ℕ)) (fen : List ℕ) (files : Files)
        (a b : Answer) →
        Succeeds (build rules table behind) files a →
        Succeeds (query table fen) a.files b →
        TellsBoundsOver table behind fen a.files b.text }
    ensures solved { (rules table : List ℕ) (behind : List (List ℕ)) (fen : List ℕ) (files : Files)
        (a b : Answer) →
        Succeeds (build rules table behind) files a →
        Succeeds (query table fen) a.files b →
        TellsSolvedOver rules table behind fen files a b.text }
{}
