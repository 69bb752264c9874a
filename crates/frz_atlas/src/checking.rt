//! Checks a table and those behind it.
ghost use Rattle.std.specs.Prelude.{◌≡◌, ◌≤◌, ◌+◌, ◌*◌, map, IfOk, IfErr};
ghost use Rattle.std.specs.String.{string_bytes};
ghost use Rattle.frz_sets.specs.Sets.{size_of};
ghost use Rattle.frz_store.specs.Told.{store_of, StoreQuiet};
ghost use Rattle.frz_table.specs.Faults.{IsOutside, TableCauses};
ghost use Rattle.frz_table.specs.Layout.{pieces_of};
ghost use Rattle.frz_table.specs.Tables.{Carries, table_size};
ghost use Rattle.frz_check.specs.Kept.{ChecksTable};
ghost use Rattle.frz_backs.specs.FileOn.{loaded_back};
ghost use Rattle.frz_backs.specs.Links.{value_over};
ghost use Rattle.frz_backs.specs.Loaded.{leans_as};
ghost use Rattle.frz_atlas.specs.Causes.{HasAtlasCause};
ghost use Rattle.frz_atlas.specs.Checking.{ChecksAtlas, RefusesAtlas};

use crate::{AtlasFault, open_behind};
use frz_backs::{AtlasBook, BackTable};
use frz_check::{RuleBook, Verdict};
use frz_plane_tables::check_kept_by_planes;
use frz_steps::Steps;
use frz_store::Store;
use frz_table::{FileKind, TableFault, TableFile, open_own};
use std::alloc::{AllocError, Global};
use std::sync::ledger::Ledger;

/// What a check says of a table: the verdict on it, its size (how many numbers it has), and the size
/// of each table behind it.
#[derive(Drop)]
pub struct Checked {
    pub verdict: Verdict,
    pub size: u32,
    pub behind: Vec<u32>,
}

/// The size of each of the tables: how many numbers it has.
fn sizes_of(alloc: Global, backs: &[BackTable]) -> Result<Vec<u32>, AllocError>
    ensures { IfOk result (λ sizes. sizes.items
        ≡ map (λ back. size_of back.table.rules.groups) backs.now) }
{
    let mut sizes = Vec::new(alloc);
    for back in backs {
        sizes.push(back.size())?;
    }
    Ok(sizes)
}

/// Loads the codes of an open table and checks them, over these tables where it leans on them.
fn check_over<S: Store, L: Ledger>(
    alloc: Global,
    table: &TableFile,
    backs: &[BackTable],
    store: &mut S,
    steps: &mut Steps<L>,
) -> Result<Verdict, TableFault>
    requires { Carries (S.files store.old) table.now }
    ensures verdict { IfOk result (ChecksTable (S.files store.old) table.now
        (value_over (leans_as table.now.kind) table.now.rules (map loaded_back backs.now))) }
    ensures outside { IfErr result IsOutside }
    ensures quiet { StoreQuiet (store_of S.Store store.old) (store_of S.Store store.new) }
    ensures asked { S.asked store.new ≤ S.asked store.old + 8 * table_size table.now }
    ensures calls { S.calls store.new ≤ S.calls store.old + 2 * pieces_of (table_size table.now) }
    ensures steps { steps.new ≤ steps.old + table_size table.now }
    ensures later { steps.old ≤ steps.new }
    ensures causes { TableCauses (S.faults store.old) (S.faults store.new)
        (S.wants store.old) (S.wants store.new) result }
{
    let rules = table.rules();
    match table.kind() {
        FileKind::Atlas => {
            let book = AtlasBook::new(rules, backs);
            check_kept_by_planes(alloc, table, store, &book, steps)
        }
        _ => check_kept_by_planes(alloc, table, store, &RuleBook::new(rules), steps),
    }
}

/// Opens the table, then the tables behind it from the left, each of which is checked over those
/// before it. At last checks the table, over all of them where it leans on them. Names may be equal.
pub fn check_atlas<S: Store, L: Ledger>(
    alloc: Global,
    store: &mut S,
    table: &str,
    behind: &[String],
    steps: &mut Steps<L>,
) -> Result<Checked, AtlasFault>
    ensures verdict { IfOk result (ChecksAtlas table.now (map string_bytes behind.now)
        (store_of S.Store store.old) (store_of S.Store store.new) steps.old steps.new) }
    ensures refused { IfErr result (RefusesAtlas table.now (map string_bytes behind.now)
        (store_of S.Store store.old) (store_of S.Store store.new) steps.old steps.new) }
    ensures quiet { StoreQuiet (store_of S.Store store.old) (store_of S.Store store.new) }
    ensures later { steps.old ≤ steps.new }
    ensures cause { HasAtlasCause result (store_of S.Store store.old) (store_of S.Store store.new) }
{
    let opened = match open_own(alloc, store, table) {
        Ok(opened) => opened,
        Err(fault) => return Err(AtlasFault::of_table(fault)),
    };
    let backs = open_behind(alloc, store, behind, steps)?;
    let sizes = sizes_of(alloc, &backs)?;
    match check_over(alloc, &opened, &backs, store, steps) {
        Ok(verdict) => Ok(Checked {
            verdict,
            size: opened.set().size(),
            behind: sizes,
        }),
        Err(fault) => Err(AtlasFault::of_table(fault)),
    }
}
