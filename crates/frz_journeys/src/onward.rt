//! Where a way that left the set of its table goes on.
ghost use Rattle.std.specs.Prelude.{◌≡◌, map, Ok, Some};
ghost use Rattle.frz_fide.specs.Valid.{IsValid};
ghost use Rattle.frz_backs.specs.Loaded.{leans_as, link_loaded};
ghost use Rattle.frz_journeys.specs.Tables.{first_from, leant_on, next_of};
ghost use Rattle.frz_journeys.specs.Onward.{CanMove, Finds, GoesOnward, LeftLegally, behind};

use frz_bits::Bitboards;
use frz_board::Move;
use frz_chain::BackTable;
use frz_exits::{ExitBook, RuleBook};
use frz_fide::after;
use frz_sets::Value;
use frz_table::FileKind;
use frz_ways::{Finish, PlayFault};

/// Where a way goes on: at the table behind at this place, from this number.
#[derive(Clone, Copy)]
pub struct Entry {
    pub place: usize,
    pub number: u32,
}

/// The first of these tables whose set holds the position, and its number there.
fn first_holding(tables: &[BackTable], q: &Bitboards) -> Option<Entry>
    requires { IsValid q.now }
    ensures { Finds tables.now q.now (first_from 0 (map link_loaded tables.now) q.now) result }
{
    for (place, back) in tables.iter().enumerate() {
        if let Some(number) = back.table.set().number_on(q) {
            return Some(Entry { place, number });
        }
    }
    None
}

/// The first of the tables on which the table leans whose set holds the position.
fn first_leant_on(table: &BackTable, before: &[BackTable], q: &Bitboards) -> Option<Entry>
    requires { IsValid q.now }
    ensures { let leans = leans_as table.now.table.kind in Finds before.now q.now
        (first_from 0 (leant_on leans (map link_loaded before.now)) q.now) result }
{
    match table.table.kind() {
        FileKind::Atlas => first_holding(before, q),
        _ => None,
    }
}

/// The table that goes on from a position outside the table's set, and the position's number there.
fn next_table(table: &BackTable, before: &[BackTable], q: &Bitboards) -> Option<Entry>
    requires { IsValid q.now }
    ensures { Finds before.now q.now
        (next_of (map link_loaded before.now) (link_loaded table.now) q.now) result }
{
    match RuleBook::new(table.table.rules()).value_on(q) {
        Value::Unknown => first_leant_on(table, before, q),
        _ => None,
    }
}

/// The position to which the move leads from this number.
fn position_behind(table: &BackTable, number: u32, mv: Move) -> Bitboards
    requires { CanMove table.now.table.rules.groups number mv }
    ensures position { behind table.now.table.rules.groups number mv ≡ Some result }
    ensures valid { IsValid result }
{
    match table.table.set().boards_at(number) {
        Some(p) => after(&p, mv),
        None => unreachable!(),
    }
}

/// Where a way goes on that finished so at the table, if a table goes on.
fn onward_from(table: &BackTable, before: &[BackTable], finish: Finish) -> Option<Entry>
    requires { LeftLegally table.now.table.rules.groups (Ok finish) }
    ensures { GoesOnward table.now before.now (Ok finish) result }
{
    match finish {
        Finish::Left(number, mv, _) => {
            next_table(table, before, &position_behind(table, number, mv))
        }
        Finish::Here(_) => None,
    }
}

/// The same, where a fault may have ended the way.
pub fn onward(
    table: &BackTable,
    before: &[BackTable],
    finish: &Result<Finish, PlayFault>,
) -> Option<Entry>
    requires { LeftLegally table.now.table.rules.groups finish.now }
    ensures { GoesOnward table.now before.now finish.now result }
{
    match *finish {
        Ok(finish) => onward_from(table, before, finish),
        Err(_) => None,
    }
}
