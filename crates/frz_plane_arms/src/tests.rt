//! Where steps lead, worked out by hand.

ghost use Rattle.std.specs.Prelude.{◌≡◌, IfOk, length};
ghost use Rattle.frz_sets.specs.Sound.{IsSound};
ghost use Rattle.frz_configurations.specs.Configurations.{configuration_count};

use crate::{inner_moves, leading_inside, target_of};
use frz_board::Colour::{self, Black, White};
use frz_board::Kind::{self, Queen, Rook};
use frz_board::{Man, Move, Square, cell_of};
use frz_configurations::Configurations;
use frz_fide::Bitboards;
use frz_index::Set;
use frz_kingless::live_pairs;
use frz_pair_moves::after;
use frz_planes::Plane;
use frz_rules::read_rules;
use std::alloc::{AllocError, Global};
use std::test::Fail;

/// A configuration is 18 where Black is to move, and 36 where e3 is the target; plus 3 for each
/// place of White's man among e8, e2, e3, d4, e4 and e7, counted from 0; plus 1 for a black pawn on
/// e3 and 2 for one on d4.
const TEXT: &str = "freezer 1
group white 1 K:a1,b1
group black 1 K:g8,h8
group white 1 Q:e8 P:e2,e3,d4,e4,e7
group black 0-1 P:e3,d4
";

const E2: u8 = 12;

const E3: u8 = 20;

const D4: u8 = 27;

const E4: u8 = 28;

const E7: u8 = 52;

const E8: u8 = 60;

/// Pawns, each a letter and a square.
type Men = &'static [(u8, u8)];

/// The board of these men.
fn board(men: Men, turn: Colour, ep: Option<u8>) -> Bitboards {
    let mut p = Bitboards::empty(turn, ep.and_then(Square::new));
    for (letter, square) in men {
        if let (Some(man), Some(s)) = (Man::of_letter(*letter), Square::new(*square)) {
            p.set(s, cell_of(man));
        }
    }
    p
}

/// Pawns, from where to where a white one goes, what it becomes, and the configuration after that.
type Step = (Men, u8, u8, Option<Kind>, Option<u32>);

const STEPS: &[Step] = &[
    // a step, and two at once beside a pawn that may take en passant
    (&[(b'P', E2), (b'p', D4)], E2, E3, None, Some(26)),
    (&[(b'P', E2), (b'p', D4)], E2, E4, None, Some(50)),
    (&[(b'P', E2)], E2, E4, None, Some(30)),
    // a capture
    (&[(b'P', E3), (b'p', D4)], E3, D4, None, Some(27)),
    // a promotion, and one to a man that the set has not there
    (&[(b'P', E7)], E7, E8, Some(Queen), Some(18)),
    (&[(b'P', E7)], E7, E8, Some(Rook), None),
];

#[test]
fn steps_of_men(rt: HostRuntime) -> Result<(), Fail> {
    let rules = read_rules(rt.alloc(), TEXT.as_bytes())?;
    let set = Set::new(rt.alloc(), &rules)?;
    let configurations = Configurations::new(rt.alloc(), &rules)?;
    for (men, from, to, promo, target) in STEPS {
        let (Some(from), Some(to)) = (Square::new(*from), Square::new(*to)) else {
            continue;
        };
        let q = after(
            &board(*men, White, None),
            Move {
                from,
                to,
                promo: *promo,
            },
        );
        assert_eq!(rt; target_of(&set, &configurations, &q), *target);
    }
    Ok(())
}

#[test]
fn boards_of_kings(rt: HostRuntime) -> Result<(), Fail> {
    let rules = read_rules(rt.alloc(), TEXT.as_bytes())?;
    let set = Set::new(rt.alloc(), &rules)?;
    let configurations = Configurations::new(rt.alloc(), &rules)?;
    // a king's quiet step leaves both pawns, and his capture on d4 the white one
    let handed = board(&[(b'P', E3), (b'p', D4)], White, None).hand_over(None);
    assert_eq!(rt; target_of(&set, &configurations, &handed), Some(26));
    let entered = handed.put(Square::at(D4), 0);
    assert_eq!(rt; target_of(&set, &configurations, &entered), Some(24));
    // two black pawns, no white man, and a target that White has passed over himself
    let men: [(Men, Colour, Option<u8>); 3] = [
        (&[(b'P', E2), (b'p', E3), (b'p', D4)], White, None),
        (&[(b'p', D4)], White, None),
        (&[(b'P', E4), (b'p', D4)], White, Some(E3)),
    ];
    for (men, turn, ep) in men {
        let p = board(men, turn, ep);
        assert_eq!(rt; target_of(&set, &configurations, &p), None);
    }
    Ok(())
}

/// A configuration is 4 where Black is to move, plus 2 where White's pawn stands on e4, plus 1 where
/// Black's pawn stands on a2.
const BINDING: &str = "freezer 1
group white 1 K:a1,b1,a2,b2
group black 1 K:g8,h8
group white 1 P:e3,e4
group black 0-1 P:a2
forbid white K from a1,b1 to b2
forbid white K from all to a2 capture
forbid black K from g8 to h8
";

const A1: u8 = 0;

const B1: u8 = 1;

const A2: u8 = 8;

const B2: u8 = 9;

const G8: u8 = 62;

const H8: u8 = 63;

/// Squares of White's king and Black's.
type Pairs = &'static [(u8, u8)];

fn plane(pairs: Pairs) -> Plane {
    let mut plane = Plane::empty();
    for (a, b) in pairs {
        if *a < 64 && *b < 64 {
            plane.put(*a, *b);
        }
    }
    plane
}

/// Configurations, each with pairs of its plane.
type Marks = &'static [(usize, Pairs)];

/// The configuration, whether only free moves count, whether they lead to the marks or elsewhere,
/// and from which pairs.
type Led = (usize, bool, bool, Pairs);

/// The live pairs of all configurations.
fn lives_of(
    alloc: Global,
    set: &Set,
    configurations: &Configurations<'_>,
) -> Result<Vec<Plane>, AllocError>
    requires sound { IsSound configurations.now.rules.now }
    requires set { set.now ≡ configurations.now.rules.now.groups }
    ensures { IfOk result (λ lives. length lives.items ≡ configuration_count set.now) }
{
    let mut lives = Vec::new(alloc);
    for c in 0..configurations.count() {
        lives.push(live_pairs(set, configurations, c))?;
    }
    Ok(lives)
}

/// The marks of the configuration.
fn marked(marks: Marks, c: usize) -> Plane {
    for (d, pairs) in marks {
        if *d == c {
            return plane(pairs);
        }
    }
    Plane::empty()
}

/// As many planes, with the marks.
fn planes_of(alloc: Global, marks: Marks, count: usize) -> Result<Vec<Plane>, AllocError>
    ensures { IfOk result (λ planes. length planes.items ≡ count) }
{
    let mut planes = Vec::new(alloc);
    for c in 0..count {
        planes.push(marked(marks, c))?;
    }
    Ok(planes)
}

/// Do the moves with pawns on e3 and a2 lead so?
fn lead(rt: &HostRuntime, turn: Colour, marks: Marks, all: &[Led]) -> Result<bool, Fail> {
    let rules = read_rules(rt.alloc(), BINDING.as_bytes())?;
    let set = Set::new(rt.alloc(), &rules)?;
    let configurations = Configurations::new(rt.alloc(), &rules)?;
    let lives = lives_of(rt.alloc(), &set, &configurations)?;
    let planes = planes_of(rt.alloc(), marks, lives.len())?;
    let p = board(&[(b'P', E3), (b'p', A2)], turn, None);
    let moves = inner_moves(rt.alloc(), &set, &configurations, &p)?;
    for (c, only_free, into, pairs) in all {
        let Some(live) = lives.get(*c) else {
            return Ok(false);
        };
        let led = leading_inside(&rules, &moves, live, &lives, &planes, *only_free, *into);
        if led != plane(pairs) {
            return Ok(false);
        }
    }
    Ok(true)
}

/// White goes Ka1-b2 or Kb1-b2 to the first mark, takes on a2 to the second, and goes e3-e4 to the
/// third. He may not go to b1, which the pawn attacks.
const MARKS_OF_WHITE: Marks = &[(5, &[(B2, G8)]), (4, &[(A2, H8)]), (7, &[(A1, H8)])];

const WHITE_LEADS: &[Led] = &[
    (
        1,
        false,
        true,
        &[(A1, G8), (B1, G8), (A1, H8), (B1, H8), (B2, H8)],
    ),
    (
        1,
        false,
        false,
        &[(A1, G8), (B1, G8), (B2, G8), (A1, H8), (B1, H8), (B2, H8)],
    ),
    (1, true, true, &[(A1, H8)]),
    (
        1,
        true,
        false,
        &[(A1, G8), (B1, G8), (B1, H8), (B2, G8), (B2, H8)],
    ),
];

/// Black's king goes between g8 and h8 while White's is not on b1.
const MARKS_OF_BLACK: Marks = &[(1, &[(A1, G8), (A1, H8)])];

const BLACK_LEADS: &[Led] = &[
    (5, false, true, &[(A1, G8), (A1, H8)]),
    (5, false, false, &[(B2, G8), (B2, H8)]),
    (5, true, true, &[(A1, H8)]),
    (5, true, false, &[(B2, H8)]),
];

#[test]
fn moves_inside(rt: HostRuntime) -> Result<(), Fail> {
    assert!(rt; lead(&rt, White, MARKS_OF_WHITE, WHITE_LEADS)?);
    assert!(rt; lead(&rt, Black, MARKS_OF_BLACK, BLACK_LEADS)?);
    Ok(())
}
