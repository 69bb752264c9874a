//! The head of a table file: its length, its magic and the length of its text.
ghost use Rattle.std.specs.Prelude.{◌+◌, ◌≤◌, IfOk};
ghost use Rattle.frz_asks.specs.Runs.{Run, Sized, end_of};
ghost use Rattle.frz_store.specs.Told.{store_of};
ghost use Rattle.frz_table.specs.Asking.{heading};
ghost use Rattle.frz_table.specs.Faults.{stop_of};
ghost use Rattle.frz_table.specs.Layout.{due_front};
ghost use Rattle.frz_table.specs.Tables.{Begins};

use crate::TableFault;
use crate::kind::due_bytes;
use crate::numbers::read_number;
use crate::other::magic_fault;
use frz_asks::{read_at, size_of};
use frz_rules::{RulesCause, RulesFault};
use frz_store::Store;

/// The greatest length of a rules text, in bytes.
pub(crate) const LONGEST_TEXT: u32 = 65_536;

/// The length of a file and that of the text in it, in bytes.
#[derive(Clone, Copy)]
pub(crate) struct Head {
    pub file: u64,
    pub text: u32,
}

/// The first five steps of opening a file: it is there, has 16 bytes or more, begins with the magic,
/// or with that of its own kind where none is given, keeps a length of at most 65,536 for its text,
/// and has room for that text. The bytes are those with which it begins.
pub(crate) fn read_head<S: Store>(
    store: &mut S,
    name: &str,
    magic: Option<[u8; 8]>,
) -> Result<(Head, [u8; 8]), TableFault>
    ensures run { Run (heading name.now (due_front magic)) (end_of stop_of (λ h. h.0) result)
        (store_of S.Store store.old) (store_of S.Store store.new) }
    ensures begins { IfOk result (λ h. Begins (S.files store.old) name.now h.1) }
    ensures sized { IfOk result (λ h. Sized (S.files store.new) name.now h.0.file) }
    ensures short { IfOk result (λ h. h.0.text ≤ 65536) }
    ensures fits { IfOk result (λ h. 16 + h.0.text ≤ h.0.file) }
{
    let Some(file) = size_of(store, name)? else {
        return Err(TableFault::Missing);
    };
    if file < 16 {
        return Err(TableFault::Truncated(file, 16));
    }
    let mut front = [0; 8];
    read_at(store, name, 0, &mut front)?;
    if front.as_slice() != due_bytes(magic, &front).as_slice() {
        return Err(magic_fault(magic, &front));
    }
    let text = read_number(store, name, 8)?;
    if text > LONGEST_TEXT {
        let cause = RulesCause::TooLong;
        return Err(TableFault::Rules(RulesFault { line: 0, cause }));
    }
    let due = 16 + u64::from(text);
    if file < due {
        return Err(TableFault::Truncated(file, due));
    }
    Ok((Head { file, text }, front))
}
