//! Loads a table with those behind it.
ghost use Rattle.std.specs.Prelude.{◌≡◌, map, IfOk, IfErr};
ghost use Rattle.std.specs.String.{string_bytes};
ghost use Rattle.frz_store.specs.Told.{store_of, StoreQuiet};
ghost use Rattle.frz_atlas.specs.Causes.{HasAtlasCause};
ghost use Rattle.frz_atlas.specs.Reading.{LoadsAtlas, RefusesToRead};

use crate::AtlasFault;
use crate::loading::load_behind;
use frz_backs::BackTable;
use frz_store::Store;
use frz_table::open_own;
use std::alloc::Global;

/// A table and those behind it, from the left, each with its codes.
pub struct LoadedAtlas {
    pub table: BackTable,
    pub backs: Vec<BackTable>,
}

impl Drop for LoadedAtlas {
    fn drop(self) {
        let LoadedAtlas { table: _, backs: _ } = self;
    }
}

/// Opens the table, then opens and loads the tables behind it from the left, and at last loads the
/// table's codes. Each is opened as its own kind. No code is checked. Names may be equal.
pub fn load_atlas<S: Store>(
    alloc: Global,
    store: &mut S,
    table: &str,
    behind: &[String],
) -> Result<LoadedAtlas, AtlasFault>
    ensures loaded { IfOk result (LoadsAtlas table.now (map string_bytes behind.now)
        (store_of S.Store store.old) (store_of S.Store store.new)) }
    ensures refused { IfErr result (RefusesToRead table.now (map string_bytes behind.now)
        (store_of S.Store store.old) (store_of S.Store store.new)) }
    ensures quiet { StoreQuiet (store_of S.Store store.old) (store_of S.Store store.new) }
    ensures cause { HasAtlasCause result (store_of S.Store store.old) (store_of S.Store store.new) }
{
    let opened = match open_own(alloc, store, table) {
        Ok(opened) => opened,
        Err(fault) => return Err(AtlasFault::of_table(fault)),
    };
    let backs = load_behind(alloc, store, behind)?;
    match opened.load(alloc, store) {
        Ok((white, black)) => Ok(LoadedAtlas {
            table: BackTable {
                table: opened,
                white,
                black,
            },
            backs,
        }),
        Err(fault) => Err(AtlasFault::of_table(fault)),
    }
}
