//! The codes of a table of the former format, read and put in the order of today's numbers.
ghost use Rattle.std.specs.Prelude.{◌≡◌, ◌<◌, ◌≤◌, ◌+◌, ◌*◌, length, IfOk, IfErr};
ghost use Rattle.frz_fide.specs.Valid.{IsValid};
ghost use Rattle.frz_index.specs.Members.{Member};
ghost use Rattle.frz_index.specs.Membership.{position_at};
ghost use Rattle.frz_index.specs.OldNumbers.{OldNum, old_size_of};
ghost use Rattle.frz_index.specs.declared.old.TheConstants.{MOST_OLD_NUMBERS};
ghost use Rattle.frz_sets.specs.Sound.{IsSound};
ghost use Rattle.frz_sets.specs.declared.limits.TheConstants.{MOST_NUMBERS};
ghost use Rattle.frz_store.specs.Told.{store_of, StoreQuiet};
ghost use Rattle.frz_table.specs.Faults.{IsOutside, TableCauses};
ghost use Rattle.frz_table.specs.Layout.{pieces_of};
ghost use Rattle.frz_former.specs.OldFiles.{CarriesOld, old_table_size};
ghost use Rattle.frz_commands_table.specs.Migrated.{AreMoved, moved_code};
ghost use Rattle.frz_commands_table.specs.Rewriting.{MovesFile, MovesLists, RefusesFormer};

use crate::tallies::BROKEN;
use frz_board::Position;
use frz_former::{OldFile, open_old};
use frz_game::Pair;
use frz_index::laws::old_numbers;
use frz_index::{Set, old_number};
use frz_sets::Rules;
use frz_store::Store;
use frz_table::TableFault;
use std::alloc::{AllocError, Global};

/// The codes of both sides at one number.
#[derive(Clone, Copy)]
pub struct Codes {
    pub white: u32,
    pub black: u32,
}

/// A table of the former format, with its codes in the order of today's numbers.
#[derive(Drop)]
pub struct Moved {
    pub file: OldFile,
    pub white: Vec<u32>,
    pub black: Vec<u32>,
}

/// The number that a position of the set has in the former format.
fn former_number(rules: &Rules, p: &Position) -> u32
    requires sound { IsSound rules.now }
    requires few { old_size_of rules.now.groups ≤ MOST_OLD_NUMBERS }
    requires valid { IsValid p.now }
    requires member { Member rules.now.groups p.now }
    ensures number { result ≡ OldNum rules.now.groups p.now }
    ensures below { result < old_size_of rules.now.groups }
{
    old_numbers();
    match old_number(rules, p) {
        Some(number) => number,
        None => unreachable!(),
    }
}

/// The codes at today's number `i`: those that its position has at its former number, and 0 where
/// `i` is broken (belongs to no position).
fn moved_at(set: &Set, rules: &Rules, old: &Pair<'_>, i: u32) -> Codes
    requires sound { IsSound rules.now }
    requires fits { set.now ≡ rules.now.groups }
    requires few { old_size_of rules.now.groups ≤ MOST_OLD_NUMBERS }
    requires size { length old.now.white.now ≡ old_size_of rules.now.groups }
    ensures white { result.white
        ≡ moved_code rules.now.groups old.now.white.now (position_at rules.now.groups i) }
    ensures black { result.black
        ≡ moved_code rules.now.groups old.now.black.now (position_at rules.now.groups i) }
{
    match set.at(i) {
        None => Codes {
            white: BROKEN,
            black: BROKEN,
        },
        Some(p) => {
            let number = former_number(rules, &p) as usize;
            Codes {
                white: old.white[number],
                black: old.black[number],
            }
        }
    }
}

/// White's codes and Black's in the order of today's numbers, in one pass over these.
fn moved_lists(
    alloc: Global,
    set: &Set,
    rules: &Rules,
    old: &Pair<'_>,
) -> Result<(Vec<u32>, Vec<u32>), AllocError>
    requires sound { IsSound rules.now }
    requires fits { set.now ≡ rules.now.groups }
    requires few { old_size_of rules.now.groups ≤ MOST_OLD_NUMBERS }
    requires size { length old.now.white.now ≡ old_size_of rules.now.groups }
    ensures white { IfOk result (λ lists.
        AreMoved rules.now.groups old.now.white.now lists.0.items) }
    ensures black { IfOk result (λ lists.
        AreMoved rules.now.groups old.now.black.now lists.1.items) }
    ensures some { IfOk result (λ lists. 1 ≤ length lists.0.items) }
    ensures few { IfOk result (λ lists. length lists.0.items ≤ MOST_NUMBERS) }
{
    let size = set.size();
    let mut white = Vec::with_capacity(alloc, size as usize)?;
    let mut black = Vec::with_capacity(alloc, size as usize)?;
    for i in 0..size {
        let codes = moved_at(set, rules, old, i);
        white.push(codes.white)?;
        black.push(codes.black)?;
    }
    Ok((white, black))
}

/// Loads the codes of an open table of the former format and puts them in today's order.
fn load_moved<S: Store>(
    alloc: Global,
    file: &OldFile,
    store: &mut S,
) -> Result<(Vec<u32>, Vec<u32>), TableFault>
    requires { CarriesOld (S.files store.old) file.now }
    ensures moved { IfOk result (λ lists.
        MovesLists (S.files store.old) file.now lists.0.items lists.1.items) }
    ensures some { IfOk result (λ lists. 1 ≤ length lists.0.items) }
    ensures few { IfOk result (λ lists. length lists.0.items ≤ MOST_NUMBERS) }
    ensures quiet { StoreQuiet (store_of S.Store store.old) (store_of S.Store store.new) }
    ensures asked { S.asked store.new ≤ S.asked store.old + 8 * old_table_size file.now }
    ensures calls { S.calls store.new
        ≤ S.calls store.old + 2 * pieces_of (old_table_size file.now) }
    ensures outside { IfErr result IsOutside }
    ensures causes { TableCauses (S.faults store.old) (S.faults store.new)
        (S.wants store.old) (S.wants store.new) result }
{
    let (white, black) = file.load(alloc, store)?;
    let set = Set::new(alloc, file.rules())?;
    let old = Pair {
        white: &white,
        black: &black,
    };
    let lists = moved_lists(alloc, &set, file.rules(), &old)?;
    Ok(lists)
}

/// Opens the table of the former format that has this name, loads its codes and puts them in
/// today's order. The calls of the store are those of opening and those of loading.
pub fn move_file<S: Store>(alloc: Global, name: &str, store: &mut S) -> Result<Moved, TableFault>
    ensures moved { IfOk result (MovesFile name.now
        (store_of S.Store store.old) (store_of S.Store store.new)) }
    ensures some { IfOk result (λ moved. 1 ≤ length moved.white.items) }
    ensures few { IfOk result (λ moved. length moved.white.items ≤ MOST_NUMBERS) }
    ensures refused { IfErr result (RefusesFormer name.now
        (store_of S.Store store.old) (store_of S.Store store.new)) }
    ensures quiet { StoreQuiet (store_of S.Store store.old) (store_of S.Store store.new) }
    ensures causes { TableCauses (S.faults store.old) (S.faults store.new)
        (S.wants store.old) (S.wants store.new) result }
{
    let file = open_old(alloc, store, name)?;
    match load_moved(alloc, &file, store) {
        Ok((white, black)) => Ok(Moved { file, white, black }),
        Err(fault) => Err(fault),
    }
}
