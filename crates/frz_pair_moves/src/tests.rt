//! The pairs of legal moves against the moves of one position after another.

use crate::{after, arriving_pairs, legal_pairs, next_step, safe_pairs, step_at, stepping_pairs};
use frz_bits::Bitboards;
use frz_board::{Colour, Kind, Man, Move, Square, cell_of};
use frz_fide::{play, valid};
use frz_king_planes::{valid_pairs, with_kings};
use frz_planes::Plane;
use std::test::Fail;

/// Is the move legal in the position that the kings make, if it is valid?
fn is_legal_at(p: &Bitboards, a: u8, b: u8, m: Move) -> bool {
    let (white, black) = (Square::at(a % 64), Square::at(b % 64));
    if a == b || !p.is_empty(white) || !p.is_empty(black) {
        return false;
    }
    let position = with_kings(p, white, black).position();
    match valid(&position) {
        Ok(()) => play(&position, m).is_some(),
        Err(_) => false,
    }
}

/// At how many pairs the move is legal.
fn legal_count(p: &Bitboards, m: Move) -> u32 {
    let mut count: u32 = 0;
    for a in 0..64 {
        for b in 0..64 {
            if is_legal_at(p, a, b, m) {
                count = count.wrapping_add(1);
            }
        }
    }
    count
}

/// White's rook on a1 and pawn on e5, which may take the pawn on d5 en passant; Black's knight on
/// g6.
fn board() -> Bitboards {
    Bitboards::empty(Colour::White, Some(Square::at(43)))
        .put(
            Square::at(0),
            cell_of(Man {
                colour: Colour::White,
                kind: Kind::Rook,
            }),
        )
        .put(
            Square::at(36),
            cell_of(Man {
                colour: Colour::White,
                kind: Kind::Pawn,
            }),
        )
        .put(
            Square::at(35),
            cell_of(Man {
                colour: Colour::Black,
                kind: Kind::Pawn,
            }),
        )
        .put(
            Square::at(46),
            cell_of(Man {
                colour: Colour::Black,
                kind: Kind::Knight,
            }),
        )
}

#[test]
fn steps_of_men(rt: HostRuntime) -> Result<(), Fail> {
    let p = board();
    let before = valid_pairs(&p);
    let mut steps: u32 = 0;
    let mut n: u16 = 0;
    while let Some(k) = next_step(&p, n) {
        let m = step_at(k);
        let next = after(&p, m);
        let count = legal_count(&p, m);
        assert_eq!(rt; legal_pairs(m, &before, &valid_pairs(&next)).count(), count);
        assert_eq!(rt; safe_pairs(&p, m, &before, &next).count(), count);
        steps = steps.wrapping_add(1);
        n = k + 1;
    }
    assert_eq!(rt; steps, 16);
    Ok(())
}

/// At how many pairs the king of the side to move may go to the square.
fn king_count(p: &Bitboards, to: Square) -> u32 {
    let mut count: u32 = 0;
    for s in 0..64 {
        let from = Square::at(s);
        if p.is_empty(from) {
            let promo = None;
            count = count.wrapping_add(legal_count(p, Move { from, to, promo }));
        }
    }
    count
}

#[test]
fn steps_of_kings(rt: HostRuntime) -> Result<(), Fail> {
    for turn in [Colour::White, Colour::Black] {
        let p = Bitboards::empty(turn, None)
            .put(Square::at(27), 3)
            .put(Square::at(46), 11);
        let before = valid_pairs(&p);
        let to = Square::at(45);
        let taking = Square::at(if turn == Colour::White { 46 } else { 27 });
        let handed = p.hand_over(None);
        for s in [to, taking] {
            let next = valid_pairs(&handed.put(s, 0));
            assert_eq!(rt;
                arriving_pairs(turn, s, &before, &next).count(),
                king_count(&p, s)
            );
        }
        let live = valid_pairs(&handed);
        let mut all = Plane::empty();
        for n in 0..64 {
            let s = Square::at(n);
            if p.is_empty(s) {
                all.union_with(&arriving_pairs(turn, s, &before, &live));
            }
        }
        assert!(rt; all == stepping_pairs(turn, &before, &live));
    }
    Ok(())
}
