//! Laws on one call after another. Each function does nothing: its clauses are the laws.
ghost use Rattle.std.specs.Prelude.{◌≡◌, ℕ, List, [], ◌∷◌};
ghost use Rattle.frz_answer.specs.declared.status.Status.TheVariants.{Success, Words, Fen, Outside, Limit};
ghost use Rattle.frz_answer.specs.Statuses.{OneOf};
ghost use Rattle.frz_answer.specs.Answers.{Answer};
ghost use Rattle.frz_store.specs.Files.{Files};
ghost use Rattle.frz_freezer_top.specs.Calls.{build, chain, chaincheck, chainquery, check, line, play, query, report, Stays, Succeeds, TellsChainedBounds, TellsSolvedBounds, TellsTrueBounds, TellsTrueLine, TellsTrueReport, TellsTrueSession};
ghost use Rattle.frz_freezer_top.specs.Commands.{job_of};

use crate::laws::one_answer;
use frz_commands_chain::laws::chained_is_accepted;
use frz_commands_table::laws::built_is_accepted;
use frz_report::laws::squeezes_are_zugzwangs;

/// After `check` has ended with status 0, `query` of the same file tells the bounds of both sides,
/// and refuses only a bad FEN or a position outside the set. `report` of it uses the codes of the
/// bounds, and refuses nothing.
pub fn asked_after_check()
    ensures query { (before later : ℕ → Files) (table fen : List ℕ) (files : Files)
        (a b : Answer) →
        Succeeds before (check table) files a → Succeeds later (query table fen) files b →
        TellsTrueBounds table fen files b.text }
    ensures query_status { (before later : ℕ → Files) (table fen : List ℕ) (files : Files)
        (input : List ℕ) (a b : Answer) →
        Succeeds before (check table) files a →
        (job_of later (query table fen)).answers files input b →
        OneOf b.status (Success ∷ Fen ∷ Outside ∷ []) }
    ensures report { (before later : ℕ → Files) (table : List ℕ) (files : Files)
        (a b : Answer) →
        Succeeds before (check table) files a → Succeeds later (report table) files b →
        TellsTrueReport table files b.text }
    ensures report_status { (before later : ℕ → Files) (table : List ℕ) (files : Files)
        (input : List ℕ) (a b : Answer) →
        Succeeds before (check table) files a →
        (job_of later (report table)).answers files input b → b.status ≡ Success }
{
    one_answer();
    squeezes_are_zugzwangs();
}

/// After `check` has ended with status 0, and as long as the file stays as it is, `line` begins
/// with the bound of its start. It finds no wrong entry on its way, and refuses nothing in the
/// file.
pub fn line_after_check()
    ensures bound { (before later : ℕ → Files) (table fen side : List ℕ) (files : Files)
        (a b : Answer) →
        Succeeds before (check table) files a → Stays table files later →
        Succeeds later (line table fen side) files b →
        TellsTrueLine later table fen side files b.text }
    ensures status { (before later : ℕ → Files) (table fen side : List ℕ) (files : Files)
        (input : List ℕ) (a b : Answer) →
        Succeeds before (check table) files a → Stays table files later →
        (job_of later (line table fen side)).answers files input b →
        OneOf b.status (Success ∷ Words ∷ Fen ∷ Outside ∷ []) }
{
    one_answer();
}

/// After `check` has ended with status 0, and as long as the file stays as it is, `play` begins
/// with the bound of its start, whatever the input is. Where the exits are true, the opponent
/// cannot force mate after any ply.
pub fn play_after_check()
    ensures bound { (before later : ℕ → Files) (table fen side : List ℕ) (files : Files)
        (a b : Answer) →
        Succeeds before (check table) files a → Stays table files later →
        (played : Succeeds later (play table fen side) files b) →
        TellsTrueSession later table fen side files played.input b.text }
    ensures status { (before later : ℕ → Files) (table fen side : List ℕ) (files : Files)
        (input : List ℕ) (a b : Answer) →
        Succeeds before (check table) files a → Stays table files later →
        (job_of later (play table fen side)).answers files input b →
        OneOf b.status (Success ∷ Words ∷ Fen ∷ Outside ∷ Limit ∷ []) }
{
    one_answer();
}

/// Over the files that `build` leaves with status 0, `check` of its table ends with status 0, and
/// `query` tells the bounds of both sides in the game of the rules file.
pub fn after_build()
    ensures check { (before later : ℕ → Files) (rules table : List ℕ) (files : Files)
        (input : List ℕ) (a b : Answer) →
        Succeeds before (build rules table) files a →
        (job_of later (check table)).answers a.files input b → b.status ≡ Success }
    ensures query { (before later : ℕ → Files) (rules table fen : List ℕ) (files : Files)
        (a b : Answer) →
        Succeeds before (build rules table) files a →
        Succeeds later (query table fen) a.files b →
        TellsTrueBounds table fen a.files b.text }
    ensures solved { (before later : ℕ → Files) (rules table fen : List ℕ) (files : Files)
        (a b : Answer) →
        Succeeds before (build rules table) files a →
        Succeeds later (query table fen) a.files b →
        TellsSolvedBounds rules fen files b.text }
{
    one_answer();
    built_is_accepted();
}

/// After `chaincheck` has ended with status 0, `chainquery` of the same file tells the bounds of
/// both sides. Exits have the values of the table's exit lines, and of the back table where these
/// say nothing.
pub fn asked_after_chaincheck()
    ensures { (before later : ℕ → Files) (table back fen : List ℕ) (files : Files)
        (a b : Answer) →
        Succeeds before (chaincheck table back) files a →
        Succeeds later (chainquery table fen) files b →
        TellsChainedBounds table back fen files b.text }
{
    one_answer();
}

/// Over the files that `chain` leaves with status 0, `chaincheck` of its table and the back table
/// ends with status 0, and `chainquery` tells the bounds of both sides.
pub fn after_chain()
    ensures check { (before later : ℕ → Files) (rules back table : List ℕ) (files : Files)
        (input : List ℕ) (a b : Answer) →
        Succeeds before (chain rules back table) files a →
        (job_of later (chaincheck table back)).answers a.files input b → b.status ≡ Success }
    ensures query { (before later : ℕ → Files) (rules back table fen : List ℕ) (files : Files)
        (a b : Answer) →
        Succeeds before (chain rules back table) files a →
        Succeeds later (chainquery table fen) a.files b →
        TellsChainedBounds table back fen a.files b.text }
{
    one_answer();
    chained_is_accepted();
}
