//! The rules in the file that the word RULES names, with their text.
ghost use Rattle.std.specs.Prelude.{◌+◌, ◌≤◌, length, IfOk, Some};
ghost use Rattle.frz_sets.specs.Sound.{IsSound};
ghost use Rattle.frz_rules.specs.declared.fault.TheConstants.{LONGEST_TEXT};
ghost use Rattle.frz_store.specs.Told.{store_of, StoreQuiet};
ghost use Rattle.frz_prelude.specs.Stops.{WantsMemoryAlone, HasItsCause};
ghost use Rattle.frz_prelude.specs.RulesFiles.{IsRead, IsTextRead, GivesText};

use crate::refused::Refused;
use crate::rules_file::{RulesFile, TOO_LONG, read_rules_file};
use crate::stop::Stop;
use frz_answer::Fault;
use frz_rules::{Rules, RulesError, read_rules};
use frz_store::Store;
use std::alloc::Global;

/// The text of a rules file, and the rules that it describes.
#[derive(Drop)]
pub struct RulesText {
    pub text: Vec<u8>,
    pub rules: Rules,
}

/// Reads the rules of the text, and keeps the text with them.
fn with_rules(alloc: Global, text: Vec<u8>) -> Result<RulesText, Stop>
    requires { length text.items ≤ LONGEST_TEXT }
    ensures due { GivesText (Some text.items) result }
    ensures memory { WantsMemoryAlone result }
    ensures sound { IfOk result (λ read. IsSound read.rules) }
    ensures short { IfOk result (λ read. length read.text.items ≤ LONGEST_TEXT) }
{
    match read_rules(alloc, &text) {
        Ok(rules) => Ok(RulesText { text, rules }),
        Err(RulesError::Bad(fault)) => Err(Stop::Refused(Refused::Rules(fault))),
        Err(RulesError::NoMemory) => Err(Stop::Fault(Fault::NoMemory)),
    }
}

/// Reads the file of this name, and the rules in it. The store is asked for the file's `size` once,
/// and for one `read` where the file is there and not too long. A missing file, a file that is too
/// long and a text that is no rules text are refused.
pub fn read_rules_text<S: Store>(
    alloc: Global,
    name: &str,
    store: &mut S,
) -> Result<RulesText, Stop>
    ensures read { IsTextRead name.now result
        (store_of S.Store store.old) (store_of S.Store store.new) }
    ensures quiet { StoreQuiet (store_of S.Store store.old) (store_of S.Store store.new) }
    ensures cause { HasItsCause result (store_of S.Store store.old) (store_of S.Store store.new) }
    ensures calls { S.calls store.new ≤ S.calls store.old + 2 }
    ensures sound { IfOk result (λ read. IsSound read.rules) }
    ensures short { IfOk result (λ read. length read.text.items ≤ LONGEST_TEXT) }
{
    match read_rules_file(alloc, name, store) {
        Ok(RulesFile::Missing) => Err(Stop::Refused(Refused::MissingRules)),
        Ok(RulesFile::TooLong) => Err(Stop::Refused(Refused::Rules(TOO_LONG))),
        Ok(RulesFile::Text(text)) => with_rules(alloc, text),
        Err(fault) => Err(Stop::from(fault)),
    }
}

/// Reads the rules of the file of this name, as [`read_rules_text`] does.
pub fn read_rules_at<S: Store>(alloc: Global, name: &str, store: &mut S) -> Result<Rules, Stop>
    ensures read { IsRead name.now result
        (store_of S.Store store.old) (store_of S.Store store.new) }
    ensures quiet { StoreQuiet (store_of S.Store store.old) (store_of S.Store store.new) }
    ensures cause { HasItsCause result (store_of S.Store store.old) (store_of S.Store store.new) }
    ensures calls { S.calls store.new ≤ S.calls store.old + 2 }
    ensures sound { IfOk result IsSound }
{
    match read_rules_text(alloc, name, store) {
        Ok(RulesText { rules, .. }) => Ok(rules),
        Err(stop) => Err(stop),
    }
}
