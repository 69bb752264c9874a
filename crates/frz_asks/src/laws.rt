//! Laws of calculations that ask, each the contract of a function that does nothing.
ghost use Rattle.std.specs.Prelude.{◌≡◌, ℕ, ◌+◌, List, Option, IfSome};
ghost use Rattle.frz_asks.specs.Later.{Changing};
ghost use Rattle.frz_asks.specs.Over.{RanOver};
ghost use Rattle.frz_asks.specs.Runs.{End, Run, came};
ghost use Rattle.frz_asks.specs.Tidy.{Tidy, unasked};
ghost use Rattle.frz_asks.specs.Traces.{Trace};
ghost use Rattle.frz_asks.specs.Trees.{Asks, Question, bind, calls_over, gives, over};
ghost use Rattle.frz_store.specs.Files.{Files};
ghost use Rattle.frz_store.specs.Told.{StoreTold};

/// One calculation and then the next give over files what the next gives behind the first, and they
/// take the calls of both.
pub fn joined<A, B>()
    ensures gives { (m : Files) (p : Asks A) (f : A → Asks B)
        → over m (bind p f) ≡ over m (f (over m p)) }
    ensures calls { (m : Files) (p : Asks A) (f : A → Asks B)
        → calls_over m (bind p f) ≡ calls_over m p + calls_over m (f (over m p)) }
{}

/// A calculation that was run to its end on a store that tells gave what it gives over the files of
/// the store.
pub fn told<A>()
    ensures { (p : Asks A) (a : A) (old new : StoreTold) → Run p (came a) old new
        → IfSome old.files (λ m. over m p ≡ a) }
{}

/// A run of a calculation that asks for each file from front to back is one over some files that
/// agree with what the store tells, with its result and its costs.
pub fn ran_over<A>()
    ensures { (p : Asks A) (end : End A) (old new : StoreTold) → Tidy (λ name. unasked) p
        → Run p end old new → RanOver p end old new }
{}

/// Any trace is one over files that may be others at each question, and that agree with what the
/// store tells.
pub fn changing<A>()
    ensures { (told : Option Files) (seen : List Question) (p : Asks A) (a : A)
        → Trace told seen p (gives a) → Changing told p a }
{}
