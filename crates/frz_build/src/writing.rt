//! The parts of a new table file, which are written one after the other.
ghost use Rattle.std.specs.Prelude.{◌≡◌, ◌+◌, ◌*◌, ◌^◌, ◌≤◌, ◌<◌, [], length, OnOk};
ghost use Rattle.frz_store.specs.Told.{store_of};
ghost use Rattle.frz_store.specs.Writes.{Appended, Written};
ghost use Rattle.frz_table.specs.Layout.{header_of, magic_of, pieces_of};
ghost use Rattle.frz_table.specs.Numbers.{number_bytes};

use crate::NewTable;
use frz_store::{Failed, Store, StoreFault};
use frz_table::{write_entries, write_header_kind};

/// Creates the file, with room for `due` bytes.
fn create_file<S: Store>(name: &str, due: u64, store: &mut S) -> Result<(), StoreFault>
    ensures created { Written name.now [] result
        (store_of S.Store store.old) (store_of S.Store store.new) }
    ensures room { OnOk result (S.room store.new ≡ due) }
    ensures asked { S.asked store.new ≡ S.asked store.old }
    ensures calls { S.calls store.new ≤ S.calls store.old + 1 }
{
    store.create(name, due)
}

/// Appends the header.
fn append_header<S: Store>(file: &NewTable<'_>, size: u32, store: &mut S) -> Result<(), Failed>
    requires text { length file.now.text.now < 2 ^ 32 }
    requires room { 16 + length file.now.text.now ≤ S.room store.old }
    ensures appended { Appended (header_of (magic_of file.now.kind) file.now.text.now size) result
        (store_of S.Store store.old) (store_of S.Store store.new) }
    ensures room { OnOk result
        (S.room store.new + (16 + length file.now.text.now) ≡ S.room store.old) }
    ensures asked { S.asked store.new ≡ S.asked store.old }
    ensures calls { S.calls store.new ≤ S.calls store.old + 3 }
{
    write_header_kind(store, file.kind, file.text, size)
}

/// Creates the file of a table of this size and writes its header, so that room for the codes of
/// both sides is left. A file of that name is replaced.
pub fn begin_table<S: Store>(
    file: &NewTable<'_>,
    size: u32,
    store: &mut S,
) -> Result<(), StoreFault>
    requires { length file.now.text.now < 2 ^ 32 }
    ensures begun { Written file.now.name.now
        (header_of (magic_of file.now.kind) file.now.text.now size) result
        (store_of S.Store store.old) (store_of S.Store store.new) }
    ensures room { OnOk result (S.room store.new ≡ 8 * size) }
    ensures asked { S.asked store.new ≡ S.asked store.old }
    ensures calls { S.calls store.new ≤ S.calls store.old + 4 }
{
    let due = 16 + file.text.len() as u64 + 8 * u64::from(size);
    create_file(file.name, due, store)?;
    append_header(file, size, store)?;
    Ok(())
}

/// Appends the codes of one side, of which there is at least one, four bytes each.
pub fn append_codes<S: Store>(codes: &[u32], store: &mut S) -> Result<(), Failed>
    requires some { 1 ≤ length codes.now }
    requires room { 4 * length codes.now ≤ S.room store.old }
    ensures appended { Appended (number_bytes codes.now) result
        (store_of S.Store store.old) (store_of S.Store store.new) }
    ensures room { OnOk result (S.room store.new + 4 * length codes.now ≡ S.room store.old) }
    ensures asked { S.asked store.new ≡ S.asked store.old }
    ensures calls { S.calls store.new ≤ S.calls store.old + pieces_of (length codes.now) }
{
    write_entries(store, codes)
}
