//! The words of the command line, or why there are none.
ghost use Rattle.std.specs.Prelude.{◌≡◌, drop, IfOk, IfErr, MatchResult};
ghost use Rattle.std.specs.IoError.{error_kind};
ghost use Rattle.std.specs.Vec.Iter.{into_iter_items};
ghost use Rattle.frz_program.specs.NoWords.{no_words_code, reason_of};

use frz_answer::{Fault, Status};
use std::alloc::{AllocError, Global};
use std::env::Args;
use std::io;
use std::io::ErrorKind;

/// Why a program has no words of the command line: one of them is not text, or memory ran out.
#[derive(Drop)]
pub enum NoWords {
    NotText,
    NoMemory,
}

impl NoWords {
    /// The status with which the program ends.
    pub fn code(&self) -> u8
        ensures { result ≡ no_words_code self.now }
    {
        match self {
            NoWords::NotText => Status::Words.code(),
            NoWords::NoMemory => Fault::NoMemory.code(),
        }
    }
}

/// Reads the runtime's error: memory ran out, or else a word of the command line is not text.
fn why_none(fault: &io::Error) -> NoWords
    ensures { result ≡ reason_of (error_kind fault.now) }
{
    match fault.kind() {
        ErrorKind::OutOfMemory => NoWords::NoMemory,
        _ => NoWords::NotText,
    }
}

/// The words after the program's name.
fn behind_name(alloc: Global, args: Args) -> Result<Vec<String>, AllocError>
    ensures { IfOk result (λ words. words.items ≡ drop 1 (into_iter_items args)) }
{
    args.skip(1).collect(alloc)
}

/// The words after the program's name, from what the runtime gave, or why there are none.
pub fn command_words(alloc: Global, given: io::Result<Args>) -> Result<Vec<String>, NoWords>
    ensures words { IfOk given (λ args. MatchResult result
        (λ words. words.items ≡ drop 1 (into_iter_items args))
        (λ why. why ≡ NoWords.NoMemory)) }
    ensures none { IfErr given (λ fault. result ≡ Err (reason_of (error_kind fault))) }
{
    match given {
        Ok(args) => behind_name(alloc, args).or(Err(NoWords::NoMemory)),
        Err(fault) => Err(why_none(&fault)),
    }
}
