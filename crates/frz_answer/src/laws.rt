//! Laws of the ends of commands: each law is the contract of a function that does nothing.
ghost use Rattle.std.specs.Prelude.{◌≡◌};
ghost use Rattle.frz_answer.specs.declared.status.Status.{Status};
ghost use Rattle.frz_answer.specs.Statuses.{code_of};

/// Different statuses have different codes.
pub fn one_code()
    ensures { (s t : Status) → code_of s ≡ code_of t → s ≡ t }
{}
