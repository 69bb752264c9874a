//! Laws on the answers of these commands. Each law is the contract of a function that does nothing.
ghost use Rattle.std.specs.Prelude.{◌≡◌, ℕ, List};
ghost use Rattle.frz_answer.specs.Answers.{Answer};
ghost use Rattle.frz_answer.specs.declared.status.Status.TheVariants.{Success};
ghost use Rattle.frz_store.specs.Files.{Files, bytes_at};
ghost use Rattle.frz_table.specs.Numbers.{AreBytes};
ghost use Rattle.frz_table.specs.Possible.{held_text};
ghost use Rattle.frz_commands_table.specs.BuildMeaning.{building_at};
ghost use Rattle.frz_commands_table.specs.CheckMeans.{checking_at};

use frz_check::laws::one_file;

/// `check` accepts at most one file for each rules text: if it ends with status 0 for two files
/// with the same text, they hold the same bytes.
pub fn one_is_accepted()
    ensures { (table other : List ℕ) (files others : Files) (input more : List ℕ) (a b : Answer) →
        (checking_at table).answers files input a → a.status ≡ Success →
        (checking_at other).answers others more b → b.status ≡ Success →
        AreBytes (bytes_at files table) → AreBytes (bytes_at others other) →
        held_text (files table) ≡ held_text (others other) →
        files table ≡ others other }
{
    one_file();
}

/// `check` ends with status 0 for the table that `build` wrote with status 0.
pub fn built_is_accepted()
    ensures { (rules table : List ℕ) (files : Files) (input more : List ℕ) (a b : Answer) →
        (building_at rules table).answers files input a → a.status ≡ Success →
        (checking_at table).answers a.files more b → b.status ≡ Success }
{}
