//! The command `migrate OLD NEW`: rewrites a table of the former file format in today's.
ghost use Rattle.std.specs.Prelude.{◌≡◌, ℕ, ◌+◌, ◌≤◌, length, map, false, OnOk};
ghost use Rattle.std.specs.String.{string_bytes};
ghost use Rattle.frz_rules.specs.declared.fault.TheConstants.{LONGEST_TEXT};
ghost use Rattle.frz_sets.specs.declared.limits.TheConstants.{MOST_NUMBERS};
ghost use Rattle.frz_store.specs.Told.{store_of};
ghost use Rattle.frz_store.specs.Writes.{Written};
ghost use Rattle.frz_table.specs.declared.kind.FileKind.TheVariants.{Plain};
ghost use Rattle.frz_table.specs.Layout.{file_of, magic_of};
ghost use Rattle.frz_build.specs.Building.{writing_calls};
ghost use Rattle.frz_prelude.specs.Replies.{Replies};
ghost use Rattle.frz_commands_table.specs.Migrating.{writing_new};
ghost use Rattle.frz_commands_table.specs.MigrateMeans.{migrating_at, migrate_words};

use crate::moving::{Moved, move_file};
use frz_answer::Refusal;
use frz_build::{NewTable, append_codes, begin_table};
use frz_prelude::{Refused, Reply, Stop, take_two};
use frz_store::{Store, StoreFault};
use frz_table::FileKind;
use std::alloc::Global;

/// Creates the file and writes it: the header, then White's codes, then Black's.
fn write_file<S: Store>(
    name: &str,
    text: &[u8],
    size: u32,
    white: &[u32],
    black: &[u32],
    store: &mut S,
) -> Result<(), StoreFault>
    requires short { length text.now ≤ LONGEST_TEXT }
    requires some { 1 ≤ size }
    requires white { length white.now ≡ size }
    requires black { length black.now ≡ size }
    ensures written { Written name.now
        (file_of (magic_of Plain) text.now size white.now black.now) result
        (store_of S.Store store.old) (store_of S.Store store.new) }
    ensures room { OnOk result (S.room store.new ≡ 0) }
    ensures asked { S.asked store.new ≡ S.asked store.old }
    ensures calls { S.calls store.new ≤ S.calls store.old + writing_calls size }
{
    let kind = FileKind::Plain;
    begin_table(&NewTable { name, kind, text }, size, store)?;
    append_codes(white, store)?;
    append_codes(black, store)?;
    Ok(())
}

/// Writes a new table file of the same text with the moved codes.
fn write_new<S: Store>(moved: &Moved, name: &str, store: &mut S) -> Result<Reply, Stop>
    requires short { length moved.now.file.text ≤ LONGEST_TEXT }
    requires some { 1 ≤ length moved.now.white.items }
    requires few { length moved.now.white.items ≤ MOST_NUMBERS }
    requires equal { length moved.now.black.items ≡ length moved.now.white.items }
    ensures { (steps : ℕ) → Replies (writing_new moved.now.file.text
        (length moved.now.white.items) moved.now.white.items moved.now.black.items name.now) result
        (store_of S.Store store.old) (store_of S.Store store.new) steps steps }
{
    let size = moved.white.len() as u32;
    let text = moved.file.text();
    write_file(name, text, size, &moved.white, &moved.black, store)?;
    Ok(Reply::Migrated(size))
}

/// Reads the table named OLD and writes it, rewritten, under the name NEW.
fn migrate_at<S: Store>(alloc: Global, old: &str, new: &str, store: &mut S) -> Result<Reply, Stop>
    ensures { (steps : ℕ) → Replies (migrating_at old.now new.now) result
        (store_of S.Store store.old) (store_of S.Store store.new) steps steps }
{
    let moved = move_file(alloc, old, store)?;
    write_new(&moved, new, store)
}

/// The command `migrate OLD NEW`; `words` are OLD and NEW. Refuses two equal names, before it reads
/// a file.
pub fn migrate<S: Store>(alloc: Global, words: &[String], store: &mut S) -> Result<Reply, Stop>
    ensures replies { (steps : ℕ) → Replies (migrate_words (map string_bytes words.now)) result
        (store_of S.Store store.old) (store_of S.Store store.new) steps steps }
    ensures store_unused { (migrate_words (map string_bytes words.now)).needs.store ≡ false
        → store.new ≡ store.old }
{
    let (old, new) = take_two(words)?;
    if old == new {
        return Err(Stop::Refused(Refused::Words(Refusal::SameName)));
    }
    migrate_at(alloc, old, new, store)
}
