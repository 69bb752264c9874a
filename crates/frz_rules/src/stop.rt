//! Why reading stops: at a word that does not fit, for a cause, or for want of memory.
ghost use Rattle.std.specs.Prelude.{◌≡◌};
ghost use Rattle.frz_rules.specs.declared.stop.Stop.TheVariants as stops;
ghost use Rattle.frz_rules.specs.declared.stop.LineError.TheVariants as refusals;

use crate::fault::RulesCause;
use std::alloc::{AllocError, AllocFailed};

/// The rest of a line, from the first word on that no line of its form has there.
#[derive(Clone, Copy)]
pub struct Left<'a>(pub &'a [u8]);

/// Why a line was not read: memory ran out, or its words do not fit from these bytes on.
#[derive(Drop)]
pub enum Stop<'a> {
    Memory,
    At(&'a [u8]),
}

impl<'a> From<AllocError> for Stop<'a> {
    ghost from_gives = { λ _ e. e ≡ stops.Memory };

    fn from(_e: AllocError) -> Stop<'a> {
        Stop::Memory
    }
}

impl<'a, T: Drop> From<AllocFailed<T>> for Stop<'a> {
    ghost from_gives = { λ _ e. e ≡ stops.Memory };

    fn from(_e: AllocFailed<T>) -> Stop<'a> {
        Stop::Memory
    }
}

impl<'a> From<Left<'a>> for Stop<'a> {
    ghost from_gives = { λ left e. e ≡ stops.At left.0 };

    fn from(left: Left<'a>) -> Stop<'a> {
        Stop::At(left.0)
    }
}

/// Why a line was not added to the rules.
#[derive(Drop)]
pub enum LineError {
    Memory,
    Cause(RulesCause),
}

impl From<AllocError> for LineError {
    ghost from_gives = { λ _ e. e ≡ refusals.Memory };

    fn from(_e: AllocError) -> LineError {
        LineError::Memory
    }
}

impl<T: Drop> From<AllocFailed<T>> for LineError {
    ghost from_gives = { λ _ e. e ≡ refusals.Memory };

    fn from(_e: AllocFailed<T>) -> LineError {
        LineError::Memory
    }
}
