//! A law on the answers of these commands. The law is the contract of a function that does nothing.
ghost use Rattle.std.specs.Prelude.{◌≡◌, ℕ, List, false};
ghost use Rattle.frz_answer.specs.Answers.{Answer};
ghost use Rattle.frz_answer.specs.declared.status.Status.TheVariants.{Success};
ghost use Rattle.frz_store.specs.Files.{Files};
ghost use Rattle.frz_commands_chain.specs.Chaining.{chaining_at, is_named_twice};
ghost use Rattle.frz_commands_chain.specs.CheckMeans.{checking_pair};

/// `chaincheck` ends with status 0 for the table that `chain` wrote with status 0, over the same
/// back table.
pub fn chained_is_accepted()
    ensures { (rules back table : List ℕ) (files : Files) (input more : List ℕ) (a b : Answer) →
        is_named_twice rules back table ≡ false →
        (chaining_at rules back table).answers files input a → a.status ≡ Success →
        (checking_pair table back).answers a.files more b → b.status ≡ Success }
{}
