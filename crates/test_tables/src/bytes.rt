//! The bytes of a table file.
ghost use Rattle.std.specs.Prelude.{◌≡◌, ◌++◌, ◌/◌, length, codes, IfOk, OnOk};
ghost use Rattle.std.specs.List.{flat_map};
ghost use Rattle.byteorder.specs.Endian.{little_bytes};
ghost use Rattle.test_tables.specs.TableBytes.{table_bytes};

use byteorder::{ByteOrder, LittleEndian};
use std::alloc::Global;
use std::test::Fail;

/// Appends the number to the bytes, in four bytes, the lowest first.
fn push_number(bytes: &mut Vec<u8>, number: u32) -> Result<(), Fail>
    ensures { OnOk result (bytes.new.items ≡ bytes.old.items ++ little_bytes 4 number) }
{
    let mut field = [0; 4];
    LittleEndian::write_u32(&mut field, number);
    bytes.extend_from_slice(&field)?;
    Ok(())
}

/// Appends the numbers to the bytes, four bytes each.
fn push_numbers(bytes: &mut Vec<u8>, numbers: &[u32]) -> Result<(), Fail>
    ensures { OnOk result (bytes.new.items
        ≡ bytes.old.items ++ flat_map (little_bytes 4) numbers.now) }
{
    for number in numbers {
        push_number(bytes, *number)?;
    }
    Ok(())
}

/// The bytes of a table file with this magic, text, size and entries, White's entries first. The
/// size need not fit the entries.
pub fn table_file(
    alloc: Global,
    magic: &[u8],
    text: &[u8],
    size: u32,
    entries: &[u32],
) -> Result<Vec<u8>, Fail>
    ensures { IfOk result (λ file. file.items
        ≡ table_bytes magic.now text.now size entries.now) }
{
    let length = u32::try_from(text.len()).or(Err("text"))?;
    let mut file = magic.to_vec(alloc)?;
    push_number(&mut file, length)?;
    file.extend_from_slice(text)?;
    push_number(&mut file, size)?;
    push_numbers(&mut file, entries)?;
    Ok(file)
}

/// The bytes of a plain table file of a text: the first half of the entries is White's, the second
/// half Black's.
pub fn plain_file(alloc: Global, text: &[u8], entries: &[u32]) -> Result<Vec<u8>, Fail>
    ensures { IfOk result (λ file. file.items
        ≡ table_bytes (codes "FREEZER2") text.now (length entries.now / 2) entries.now) }
{
    let size = u32::try_from(entries.len() / 2).or(Err("entries"))?;
    table_file(alloc, b"FREEZER2", text, size, entries)
}
