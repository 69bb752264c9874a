//! The text of a table file, and its rules.
ghost use Rattle.std.specs.Prelude.{◌≡◌, ◌+◌, ◌≤◌, length, IfOk, IfErr, IfSome, OnOk};
ghost use Rattle.frz_asks.specs.Runs.{Run, Sized, came, end_of, halted};
ghost use Rattle.frz_asks.specs.Trees.{ask_bytes};
ghost use Rattle.frz_store.specs.Files.{Covers};
ghost use Rattle.frz_store.specs.Told.{store_of};
ghost use Rattle.frz_table.specs.Asking.{texting};
ghost use Rattle.frz_table.specs.Faults.{stop_of};
ghost use Rattle.frz_table.specs.Layout.{due_front};
ghost use Rattle.frz_table.specs.Tables.{Begins, IsRead};
ghost use Rattle.frz_table.specs.Views.{opened_of};

use crate::TableFault;
use crate::head::{LONGEST_TEXT, read_head};
use crate::laws::bytes_fit;
use frz_asks::read_at;
use frz_rules::{Rules, read_rules};
use frz_store::{Store, StoreFault};
use std::alloc::Global;

/// The length of a file in bytes, the eight with which it begins, the rules text in it, and the rules
/// that the text gives.
#[derive(Drop)]
pub struct Text {
    pub file: u64,
    pub magic: [u8; 8],
    pub text: Vec<u8>,
    pub rules: Rules,
}

/// Fills the slice with `count` bytes of the file from byte 12 on, where its text begins.
fn read_text<S: Store>(
    store: &mut S,
    name: &str,
    count: u32,
    into: &mut [u8],
) -> Result<(), StoreFault>
    requires there { IfSome (S.files store.old) (Covers 12 count name.now) }
    requires room { length into.old ≡ count }
    ensures came { OnOk result (Run (ask_bytes name.now 12 count) (came into.new)
        (store_of S.Store store.old) (store_of S.Store store.new)) }
    ensures halted { IfErr result (λ h. Run (ask_bytes name.now 12 count) (halted h)
        (store_of S.Store store.old) (store_of S.Store store.new)) }
    ensures length { length into.new ≡ count }
{
    let _ = count;
    read_at(store, name, 12, into)
}

/// The first six steps of opening a file: those of its head, and the text gives rules. Where no magic
/// is given, that of its own kind is due. No memory is taken before the rules are read.
pub fn open_text<S: Store>(
    alloc: Global,
    store: &mut S,
    name: &str,
    magic: Option<[u8; 8]>,
) -> Result<Text, TableFault>
    ensures run { Run (texting name.now (due_front magic)) (end_of stop_of opened_of result)
        (store_of S.Store store.old) (store_of S.Store store.new) }
    ensures begins { IfOk result (λ t. Begins (S.files store.old) name.now t.magic) }
    ensures sized { IfOk result (λ t. Sized (S.files store.new) name.now t.file) }
    ensures read { IfOk result (λ t. IsRead t.text.items t.rules) }
    ensures short { IfOk result (λ t. length t.text.items ≤ 65536) }
    ensures fits { IfOk result (λ t. 16 + length t.text.items ≤ t.file) }
{
    let (head, magic) = read_head(store, name, magic)?;
    let mut buffer = [0; LONGEST_TEXT as usize];
    let text = &mut buffer[..head.text as usize];
    read_text(store, name, head.text, text)?;
    bytes_fit(text);
    let rules = read_rules(alloc, text)?;
    let text = Vec::from_slice(alloc, text)?;
    Ok(Text {
        file: head.file,
        magic,
        text,
        rules,
    })
}
