//! The size that a table file keeps, and the length that is due by it.
ghost use Rattle.std.specs.Prelude.{◌≡◌, ◌+◌, ◌≤◌, length, OnOk};
ghost use Rattle.frz_asks.specs.Runs.{Run, Sized, end_of};
ghost use Rattle.frz_store.specs.Told.{store_of};
ghost use Rattle.frz_table.specs.Asking.{sizing};
ghost use Rattle.frz_table.specs.Faults.{stop_of};
ghost use Rattle.frz_table.specs.Layout.{due_length};
ghost use Rattle.frz_table.specs.Views.{opened_of};

use crate::TableFault;
use crate::numbers::read_number;
use crate::texts::Text;
use frz_store::Store;

/// The last two steps of opening a file: it keeps the size `size`, and has the length that is due
/// by that size.
pub fn check_size<S: Store>(
    store: &mut S,
    name: &str,
    opened: &Text,
    size: u32,
) -> Result<(), TableFault>
    requires sized { Sized (S.files store.old) name.now opened.now.file }
    requires short { length opened.now.text.items ≤ 65536 }
    requires fits { 16 + length opened.now.text.items ≤ opened.now.file }
    ensures run { Run (sizing name.now (opened_of opened.now) size) (end_of stop_of (λ t. t) result)
        (store_of S.Store store.old) (store_of S.Store store.new) }
    ensures due { OnOk result (opened.now.file ≡ due_length opened.now.text.items size) }
{
    let text = opened.text.len() as u64;
    let kept = read_number(store, name, 12 + text)?;
    if kept != size {
        return Err(TableFault::Size(kept, size));
    }
    let due = 16 + text + 8 * u64::from(size);
    if opened.file < due {
        return Err(TableFault::Truncated(opened.file, due));
    }
    if opened.file > due {
        return Err(TableFault::Extra(opened.file, due));
    }
    Ok(())
}
