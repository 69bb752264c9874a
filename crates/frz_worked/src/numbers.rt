//! Numbers of sets: worked ones, and all of them against a count of the positions.
ghost use Rattle.std.specs.Prelude.{◌≤◌};
ghost use Rattle.frz_fide.specs.Valid.{IsValid};
ghost use Rattle.frz_index.specs.declared.old.TheConstants.{MOST_OLD_NUMBERS};
ghost use Rattle.frz_index.specs.OldNumbers.{old_size_of};
ghost use Rattle.frz_sets.specs.Sound.{IsSound};

use crate::boards::position;
use crate::expect::{expect_equal, expect_holds};
use crate::texts::{
    BLACK_FIRST, BLOCKED, BOTH_TARGETS, CROWD, KNIGHTS, MIXED, PAWNS, ROOK, ROOKS, TARGET, THREE,
    TWO_GROUPS,
};
use frz_board::Colour::{self, Black, White};
use frz_board::{Man, Position, Square, cell_of};
use frz_fide::valid;
use frz_index::{Set, old_number, old_size};
use frz_rules::read_rules;
use frz_sets::{Group, Rules};
use std::alloc::Global;
use std::process::Abort;
use std::test::Fail;

fn is_same(p: &Position, q: &Position) -> bool {
    p.cells().as_slice() == q.cells().as_slice() && p.turn() == q.turn() && p.ep() == q.ep()
}

/// A number, its position's men, the side to move and the target.
type Row = (u32, &'static str, Colour, Option<u8>);

/// The set of the text.
pub(super) fn set_of(alloc: Global, text: &str) -> Result<Set, Fail> {
    let rules = read_rules(alloc, text.as_bytes())?;
    Ok(Set::new(alloc, &rules)?)
}

/// Has the position this number, and the number this position?
fn is_at(set: &Set, p: &Position, number: u32) -> bool
    requires { IsValid p.now }
{
    if set.number(p) != Some(number) {
        return false;
    }
    match set.at(number) {
        Some(q) => is_same(p, &q),
        None => false,
    }
}

/// The set has this number, both ways.
fn check_row(rt: &impl Abort, set: &Set, row: &Row) -> Result<(), Fail> {
    let (number, men, turn, target) = *row;
    let p = position(men, turn, target).ok_or("a position")?;
    expect_holds(rt, is_at(set, &p, number), &(number, men));
    Ok(())
}

/// The set has so many numbers, and these of them are broken.
fn check_broken(rt: &impl Abort, set: &Set, size: u32, broken: &[u32]) {
    expect_equal(rt, &set.size(), &size, "size");
    for number in broken {
        expect_holds(rt, set.at(*number).is_none(), number);
    }
}

/// The set of the text has these numbers, both ways, and the broken ones are broken.
fn check_rows(
    rt: &impl Abort,
    alloc: Global,
    text: &str,
    size: u32,
    rows: &[Row],
    broken: &[u32],
) -> Result<(), Fail> {
    let set = set_of(alloc, text)?;
    check_broken(rt, &set, size, broken);
    for row in rows {
        check_row(rt, &set, row)?;
    }
    Ok(())
}

const BLOCKED_ROWS: &[Row] = &[(1222, "Kg4 kg6 Pa4 Pb3 Pc4 Pe4 pa5 pb4 pc5 pe5", White, None)];

const ROOK_ROWS: &[Row] = &[
    (0, "Kb6 Rh1 ka8", White, None),
    (1, "Kb6 Rh1 kb8", White, None),
    (4, "Kb6 Rh1 ka8", Black, None),
    (5, "Kb6 Rh1 kb8", Black, None),
    (6, "Kb6 Rh8 ka8", Black, None),
    (7, "Kb6 Rh8 kb8", Black, None),
];

const TARGET_ROWS: &[Row] = &[
    (0, "Ka1 kh8 Pe5", White, None),
    (1, "Ka1 kh8 Pe5 pd5", White, None),
    (2, "Ka1 kh8 Pd6", White, None),
    (3, "Ka1 kh8 Pd6 pd5", White, None),
    (4, "Ka1 kh8 Pe5", Black, None),
    (5, "Ka1 kh8 Pe5 pd5", Black, None),
    (6, "Ka1 kh8 Pd6", Black, None),
    (7, "Ka1 kh8 Pd6 pd5", Black, None),
    (9, "Ka1 kh8 Pe5 pd5", White, Some(43)),
];

const ROOKS_ROWS: &[Row] = &[
    (0, "Kb6 ka8", White, None),
    (1, "Kb6 kb8", White, None),
    (2, "Kb6 Rh1 ka8", White, None),
    (3, "Kb6 Rh1 kb8", White, None),
    (8, "Kb6 ka8", Black, None),
    (9, "Kb6 kb8", Black, None),
    (10, "Kb6 Rh1 ka8", Black, None),
    (11, "Kb6 Rh1 kb8", Black, None),
    (12, "Kb6 Rh8 ka8", Black, None),
    (13, "Kb6 Rh8 kb8", Black, None),
    (14, "Kb6 Rh1 Rh8 ka8", Black, None),
    (15, "Kb6 Rh1 Rh8 kb8", Black, None),
];

#[test]
fn worked_numbers(rt: HostRuntime) -> Result<(), Fail> {
    let alloc = rt.alloc();
    check_rows(&rt, alloc, BLOCKED, 6400, BLOCKED_ROWS, &[])?;
    check_rows(&rt, alloc, ROOK, 8, ROOK_ROWS, &[2, 3])?;
    check_rows(&rt, alloc, TARGET, 12, TARGET_ROWS, &[8, 10, 11])?;
    check_rows(&rt, alloc, ROOKS, 16, ROOKS_ROWS, &[4, 5, 6, 7])
}

/// A position's men, the side to move, and its number in the former format.
type OldRow = (&'static str, Colour, Option<u32>);

/// In the former format each rook that may be there has a digit: its place, or 2 where it is
/// absent.
const OLD_ROWS: &[OldRow] = &[
    ("Kb6 Rh1 Rh8 ka8", Black, Some(20)),
    ("Kb6 Rh1 Rh8 kb8", Black, Some(21)),
    ("Kb6 Rh1 ka8", Black, Some(22)),
    ("Kb6 Rh1 kb8", Black, Some(23)),
    ("Kb6 Rh8 ka8", Black, Some(28)),
    ("Kb6 Rh8 kb8", Black, Some(29)),
    ("Kb6 ka8", Black, Some(34)),
    ("Kb6 kb8", Black, Some(35)),
    ("Kb6 Rh1 kb8", White, Some(5)),
    ("Kb6 Rh2 kb8", Black, None),
];

fn check_old_number(rt: &impl Abort, rules: &Rules, row: &OldRow) -> Result<(), Fail>
    requires sound { IsSound rules.now }
    requires size { old_size_of rules.now.groups ≤ MOST_OLD_NUMBERS }
{
    let (men, turn, number) = *row;
    let p = position(men, turn, None).ok_or("a position")?;
    expect_equal(rt, &old_number(rules, &p), &number, men);
    Ok(())
}

#[test]
fn old_numbers(rt: HostRuntime) -> Result<(), Fail> {
    let rules = read_rules(rt.alloc(), ROOKS.as_bytes())?;
    assert_eq!(rt; old_size(&rules), 36);
    for row in OLD_ROWS {
        check_old_number(&rt, &rules, row)?;
    }
    Ok(())
}

/// How many men of the group there are.
fn men_of(group: &Group, cells: &[u8; 64]) -> usize {
    let colour = group.colour;
    group
        .states
        .iter()
        .filter(|state| cells[state.1.number() as usize]
            == cell_of(Man {
                colour,
                kind: state.0,
            }))
        .count()
}

fn is_crowded(groups: &[Group], cells: &[u8; 64]) -> bool {
    groups
        .iter()
        .any(|group| men_of(group, cells) > group.most as usize)
}

/// For each square a bit for each cell that a man of the groups can give it.
fn squares_of(groups: &[Group]) -> [u16; 64] {
    let mut squares = [0; 64];
    for group in groups {
        let colour = group.colour;
        for state in &group.states {
            let cell = cell_of(Man {
                colour,
                kind: state.0,
            });
            squares[state.1.number() as usize] |= 1u16.wrapping_shl(u32::from(cell));
        }
    }
    squares
}

fn is_valid(cells: &[u8; 64], turn: Colour, target: Option<Square>) -> bool {
    match Position::new(*cells, turn, target) {
        Some(p) => valid(&p).is_ok(),
        None => false,
    }
}

/// How many valid positions have these cells.
fn positions_of(cells: &[u8; 64]) -> u32 {
    let mut total: u32 = 0;
    for turn in [Colour::White, Colour::Black] {
        // Targets stand on ranks 3 and 6, and square 64 is none.
        for target in 16..65 {
            if target / 8 == 2 || target / 8 == 5 || target == 64 {
                total = total.saturating_add(is_valid(cells, turn, Square::new(target)) as u32);
            }
        }
    }
    total
}

/// How many positions of the set have these men, and on the squares from `square` on some more.
fn members(groups: &[Group], squares: &[u16; 64], cells: &mut [u8; 64], square: u8) -> u32 {
    if square > 63 {
        let are_enough = groups
            .iter()
            .all(|group| men_of(group, cells) >= group.least as usize);
        return if are_enough { positions_of(cells) } else { 0 };
    }
    let mut total = members(groups, squares, cells, square + 1);
    for cell in 1..13 {
        if squares[square as usize] & (1 << cell) != 0 {
            cells[square as usize] = cell;
            if !is_crowded(groups, cells) {
                total = total.saturating_add(members(groups, squares, cells, square + 1));
            }
            cells[square as usize] = 0;
        }
    }
    total
}

/// Is the position valid, and is this its number?
fn is_numbered(set: &Set, p: &Position, number: u32) -> bool {
    valid(p).is_ok() && set.number(p) == Some(number)
}

/// The set has so many numbers, and so many positions have one, each of which is valid and has the
/// number that it stands at.
fn check_numbers(rt: &impl Abort, set: &Set, text: &str, size: u32, positions: u32) {
    let mut found: u32 = 0;
    for i in 0..set.size() {
        if let Some(p) = set.at(i) {
            expect_holds(rt, is_numbered(set, &p, i), &(text, i));
            found = found.saturating_add(1);
        }
    }
    expect_equal(rt, &(set.size(), found), &(size, positions), text);
}

/// How many positions the set of the text has.
fn count_positions(alloc: Global, text: &str) -> Result<u32, Fail> {
    let rules = read_rules(alloc, text.as_bytes())?;
    let squares = squares_of(&rules.groups);
    Ok(members(&rules.groups, &squares, &mut [0; 64], 0))
}

/// Each number of the set is that of its position, and there are as many as positions.
fn check_every_number(rt: &impl Abort, alloc: Global, text: &str, size: u32) -> Result<(), Fail> {
    let positions = count_positions(alloc, text)?;
    let set = set_of(alloc, text)?;
    check_numbers(rt, &set, text, size, positions);
    Ok(())
}

const SIZES: &[(&str, u32)] = &[
    (ROOK, 8),
    (ROOKS, 16),
    (TARGET, 12),
    (TWO_GROUPS, 288),
    (KNIGHTS, 396),
    (MIXED, 2200),
    (BOTH_TARGETS, 3080),
    (CROWD, 1536),
    (BLACK_FIRST, 7920),
    (THREE, 328),
    (PAWNS, 2888),
];

#[test]
fn every_number(rt: HostRuntime) -> Result<(), Fail> {
    for (text, size) in SIZES {
        check_every_number(&rt, rt.alloc(), text, *size)?;
    }
    Ok(())
}
