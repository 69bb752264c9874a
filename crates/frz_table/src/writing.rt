//! Writing a table file into the room of the file that was created last.
ghost use Rattle.std.specs.Prelude.{◌≡◌, ℕ, ◌+◌, ◌*◌, ◌≤◌, ◌<◌, ◌^◌, ◌++◌, length, take, OnOk, OnErr};
ghost use Rattle.std.specs.Int.{w32, to_le_bytes};
ghost use Rattle.std.specs.Option.{option_map};
ghost use Rattle.frz_store.specs.Files.{grown};
ghost use Rattle.frz_store.specs.Outside.{HasCause};
ghost use Rattle.frz_table.specs.declared.kind.FileKind.TheVariants.{Plain};
ghost use Rattle.frz_table.specs.Layout.{header_of, magic_of, pieces_of};
ghost use Rattle.frz_table.specs.Numbers.{number_bytes};

use crate::FileKind;
use crate::lists::PIECE;
use crate::numbers::put_numbers;
use frz_store::{Failed, Store};

/// The first 12 bytes of a file: the magic of the kind and the length of the text.
fn front_of(kind: FileKind, text_length: u32) -> [u8; 12]
    ensures { result ≡ magic_of kind ++ to_le_bytes w32 text_length }
{
    let mut front = [0; 12];
    front[..8].copy_from_slice(kind.magic());
    front[8..].copy_from_slice(&text_length.to_le_bytes());
    front
}

/// Appends the header of a table of this kind: the magic (8 bytes), the length of the text (4), the
/// text, and the size (4), which is the number of codes a side.
pub fn write_header_kind<S: Store>(
    store: &mut S,
    kind: FileKind,
    text: &[u8],
    size: u32,
) -> Result<(), Failed>
    requires text { length text.now < 2 ^ 32 }
    requires room { 16 + length text.now ≤ S.room store.old }
    ensures files { OnOk result (S.files store.new
        ≡ option_map (grown (S.last store.old) (header_of (magic_of kind) text.now size))
        (S.files store.old)) }
    ensures failed_files { OnErr result ((k : ℕ) × (S.files store.new
        ≡ option_map (grown (S.last store.old) (take k (header_of (magic_of kind) text.now size)))
        (S.files store.old))) }
    ensures last { S.last store.new ≡ S.last store.old }
    ensures room { OnOk result (S.room store.new + (16 + length text.now) ≡ S.room store.old) }
    ensures asked { S.asked store.new ≡ S.asked store.old }
    ensures calls { S.calls store.new ≤ S.calls store.old + 3 }
    ensures calls_later { S.calls store.old ≤ S.calls store.new }
    ensures wants { S.wants store.new ≡ S.wants store.old }
    ensures cause { HasCause (S.faults store.old) (S.faults store.new) result }
{
    store.append(&front_of(kind, text.len() as u32))?;
    store.append(text)?;
    store.append(&size.to_le_bytes())
}

/// Appends the header of a plain table.
pub fn write_header<S: Store>(store: &mut S, text: &[u8], size: u32) -> Result<(), Failed>
    requires text { length text.now < 2 ^ 32 }
    requires room { 16 + length text.now ≤ S.room store.old }
    ensures files { OnOk result (S.files store.new
        ≡ option_map (grown (S.last store.old) (header_of (magic_of Plain) text.now size))
        (S.files store.old)) }
    ensures failed_files { OnErr result ((k : ℕ) × (S.files store.new
        ≡ option_map (grown (S.last store.old) (take k (header_of (magic_of Plain) text.now size)))
        (S.files store.old))) }
    ensures last { S.last store.new ≡ S.last store.old }
    ensures room { OnOk result (S.room store.new + (16 + length text.now) ≡ S.room store.old) }
    ensures asked { S.asked store.new ≡ S.asked store.old }
    ensures calls { S.calls store.new ≤ S.calls store.old + 3 }
    ensures calls_later { S.calls store.old ≤ S.calls store.new }
    ensures wants { S.wants store.new ≡ S.wants store.old }
    ensures cause { HasCause (S.faults store.old) (S.faults store.new) result }
{
    write_header_kind(store, FileKind::Plain, text, size)
}

/// Appends the codes, four bytes each, in pieces of 16,384 codes, of which the last may be shorter.
pub fn write_entries<S: Store>(store: &mut S, codes: &[u32]) -> Result<(), Failed>
    requires { 4 * length codes.now ≤ S.room store.old }
    ensures files { OnOk result (0 < length codes.now → S.files store.new
        ≡ option_map (grown (S.last store.old) (number_bytes codes.now)) (S.files store.old)) }
    ensures failed_files { OnErr result ((k : ℕ) × (S.files store.new
        ≡ option_map (grown (S.last store.old) (take k (number_bytes codes.now)))
        (S.files store.old))) }
    ensures empty { length codes.now ≡ 0 → store.new ≡ store.old }
    ensures last { S.last store.new ≡ S.last store.old }
    ensures room { OnOk result (S.room store.new + 4 * length codes.now ≡ S.room store.old) }
    ensures asked { S.asked store.new ≡ S.asked store.old }
    ensures calls { S.calls store.new ≤ S.calls store.old + pieces_of (length codes.now) }
    ensures calls_later { S.calls store.old ≤ S.calls store.new }
    ensures wants { S.wants store.new ≡ S.wants store.old }
    ensures cause { HasCause (S.faults store.old) (S.faults store.new) result }
{
    let mut buffer = [0; 4 * PIECE];
    let mut rest = codes;
    while !rest.is_empty() {
        let here = PIECE.min(rest.len());
        let (piece, more) = rest.split_at(here);
        put_numbers(piece, &mut buffer[..4 * here]);
        store.append(&buffer[..4 * here])?;
        rest = more;
    }
    Ok(())
}
