//! Opens and loads the tables behind another from the left, and checks none of them.
ghost use Rattle.std.specs.Prelude.{◌≡◌, map, IfOk, IfErr};
ghost use Rattle.std.specs.String.{string_bytes};
ghost use Rattle.frz_store.specs.Told.{store_of, StoreQuiet};
ghost use Rattle.frz_backs.specs.Loaded.{link_loaded};
ghost use Rattle.frz_atlas.specs.Causes.{HasAtlasCause, HasFileCause};
ghost use Rattle.frz_atlas.specs.Loading.{LoadsAll, LoadsOne, RefusesOne, RefusesToLoad};

use crate::kinds::open_own;
use crate::{AtlasFault, BackFault};
use frz_backs::BackTable;
use frz_store::Store;
use frz_table::TableFault;
use std::alloc::Global;

/// Opens the table of this name as its own kind, and loads its codes, which are not checked.
pub fn load_own<S: Store>(alloc: Global, store: &mut S, name: &str) -> Result<BackTable, TableFault>
    ensures loaded { IfOk result (LoadsOne name.now
        (store_of S.Store store.old) (store_of S.Store store.new)) }
    ensures refused { IfErr result (RefusesOne name.now
        (store_of S.Store store.old) (store_of S.Store store.new)) }
    ensures quiet { StoreQuiet (store_of S.Store store.old) (store_of S.Store store.new) }
    ensures cause { HasFileCause result (store_of S.Store store.old) (store_of S.Store store.new) }
{
    let table = open_own(alloc, store, name)?;
    let (white, black) = table.load(alloc, store)?;
    Ok(BackTable {
        table,
        white,
        black,
    })
}

/// Opens the tables of these names from the left, each as its own kind, and loads their codes, which
/// are not checked. Stops at the first that is refused, and names its place, from 0.
pub fn load_behind<S: Store>(
    alloc: Global,
    store: &mut S,
    names: &[String],
) -> Result<Vec<BackTable>, AtlasFault>
    ensures loaded { IfOk result (λ backs. LoadsAll (map string_bytes names.now)
        (map link_loaded backs.items) (store_of S.Store store.old) (store_of S.Store store.new)) }
    ensures refused { IfErr result (RefusesToLoad (map string_bytes names.now)
        (store_of S.Store store.old) (store_of S.Store store.new)) }
    ensures quiet { StoreQuiet (store_of S.Store store.old) (store_of S.Store store.new) }
    ensures cause { HasAtlasCause result (store_of S.Store store.old) (store_of S.Store store.new) }
{
    let mut backs = Vec::new(alloc);
    for (place, name) in names.iter().enumerate() {
        let back = match load_own(alloc, store, name) {
            Ok(back) => back,
            Err(fault) => return Err(AtlasFault::of_back(place, BackFault::Refused(fault))),
        };
        backs.push(back)?;
    }
    Ok(backs)
}
