//! What a call takes: its words, a sink for its text, and calls of an object that fail.
ghost use Rattle.std.specs.Prelude.{◌≡◌, [], ◌∷◌, map, Some, IfOk};
ghost use Rattle.std.specs.String.{string_bytes};
ghost use Rattle.frz_store.specs.Fails.{new_plan};
ghost use Rattle.frz_store.specs.MemSink.{plan, room_left};
ghost use Rattle.frz_store.specs.declared.fails.Fail.{Fail as Failing};
ghost use Rattle.frz_store.specs.declared.fails.FailOn.TheVariants.{Call};

use frz_store::{Fail as Failing, FailOn, MemSink, Sink};
use std::alloc::Global;
use std::test::Fail;

/// The words of a line, as a call takes them.
pub fn words_of(alloc: Global, line: &[&str]) -> Result<Vec<String>, Fail>
    ensures { IfOk result (λ words. map string_bytes words.items ≡ map (λ word. word.now) line.now) }
{
    let mut words = Vec::new(alloc);
    for word in line {
        words.push(String::from_str(alloc, word)?)?;
    }
    Ok(words)
}

/// No call fails.
pub fn no_fails(alloc: Global) -> Vec<Failing>
    ensures { result.items ≡ [] }
{
    Vec::new(alloc)
}

/// The nth call fails, from 1, and keeps nothing.
pub fn call_fails(alloc: Global, nth: u64) -> Result<Vec<Failing>, Fail>
    ensures { IfOk result (λ fails. fails.items ≡ record { on = Call; nth = nth; keep = 0 } ∷ []) }
{
    let fail = Failing {
        on: FailOn::Call,
        nth,
        keep: 0,
    };
    Ok(vec![in alloc; fail]?)
}

/// An empty sink with room for so many bytes, of which no write is to fail.
pub fn empty_sink(alloc: Global, room: usize) -> Result<MemSink, Fail>
    ensures taken { IfOk result (λ sink. ⟦<MemSink as Sink>⟧.taken sink ≡ Some []) }
    ensures faults { IfOk result (λ sink. ⟦<MemSink as Sink>⟧.faults sink ≡ 0) }
    ensures room { IfOk result (λ sink. room_left sink ≡ room) }
    ensures plan { IfOk result (λ sink. plan sink ≡ new_plan []) }
{
    Ok(MemSink::new(alloc, room, no_fails(alloc)).or(Err("sink"))?)
}
