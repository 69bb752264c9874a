//! The file that the word RULES names.
ghost use Rattle.std.specs.Prelude.{◌≡◌, ◌+◌, ◌≤◌, IfOk, IfSome};
ghost use Rattle.frz_store.specs.Outside.{FreeCauses};
ghost use Rattle.frz_store.specs.Told.{store_of, StoreQuiet};
ghost use Rattle.frz_prelude.specs.RulesFiles.{AreBytesOf, IsHeld, asked_of, asked_by, reads_of, reads_by};

use frz_rules::{LONGEST_TEXT, RulesCause, RulesFault};
use frz_store::{Store, StoreFault};
use frz_table::laws::bytes_fit;
use std::alloc::Global;

/// The fault of a rules text that is too long. It is in no line, so its line number is 0.
pub const TOO_LONG: RulesFault = RulesFault {
    line: 0,
    cause: RulesCause::TooLong,
};

/// What the store has under the name of a rules file. A file that is longer than a rules text may
/// be, `LONGEST_TEXT` bytes, is not read.
#[derive(Drop)]
pub enum RulesFile {
    Missing,
    TooLong,
    Text(Vec<u8>),
}

/// Reads the rules file of this name. The store is asked for its `size` once, and for one `read` of
/// the whole file where it is there and not too long.
pub fn read_rules_file<S: Store>(
    alloc: Global,
    name: &str,
    store: &mut S,
) -> Result<RulesFile, StoreFault>
    ensures held { IfOk result
        (λ file. IfSome (S.files store.old) (λ m. IsHeld (m name.now) file)) }
    ensures bytes { IfOk result AreBytesOf }
    ensures quiet { StoreQuiet (store_of S.Store store.old) (store_of S.Store store.new) }
    ensures causes { FreeCauses (S.faults store.old) (S.faults store.new)
        (S.wants store.old) (S.wants store.new) result }
    ensures calls { S.calls store.new ≤ S.calls store.old + 2 }
    ensures calls_told { IfSome (S.files store.old)
        (λ m. S.calls store.new ≤ S.calls store.old + (1 + reads_of (m name.now))) }
    ensures calls_by { IfOk result
        (λ file. S.calls store.new ≤ S.calls store.old + (1 + reads_by file)) }

    // How many bytes are asked of the store.
    ensures asked { IfSome (S.files store.old)
        (λ m. S.asked store.new ≤ S.asked store.old + asked_of (m name.now)) }
    ensures asked_by { IfOk result (λ file. S.asked store.new ≤ S.asked store.old + asked_by file) }
    ensures asked_most { S.asked store.new ≤ S.asked store.old + LONGEST_TEXT }
    ensures short { IfOk result (λ file. asked_by file ≤ LONGEST_TEXT) }
{
    let Some(size) = store.size(name)? else {
        return Ok(RulesFile::Missing);
    };
    if size > LONGEST_TEXT as u64 {
        return Ok(RulesFile::TooLong);
    }
    let Ok(mut text) = vec![in alloc; 0; size as usize] else {
        return Err(StoreFault::NoMemory);
    };
    store.read(name, 0, &mut text)?;
    bytes_fit(&text);
    Ok(RulesFile::Text(text))
}
