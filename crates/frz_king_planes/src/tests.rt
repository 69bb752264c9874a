//! The valid positions of endings that are known by their count.

use crate::valid_pairs;
use frz_bits::Bitboards;
use frz_board::{Colour, Kind, Man, Square, cell_of};
use std::test::Fail;

/// How many valid positions there are with both kings and a white man of this kind.
fn positions(kind: Kind, turn: Colour) -> u32 {
    let cell = cell_of(Man {
        colour: Colour::White,
        kind,
    });
    let mut count: u32 = 0;
    for s in 0..64 {
        let board = Bitboards::empty(turn, None).put(Square::at(s), cell);
        count = count.wrapping_add(valid_pairs(&board).count());
    }
    count
}

#[test]
fn rook(rt: HostRuntime) -> Result<(), Fail> {
    assert_eq!(rt; positions(Kind::Rook, Colour::White), 175_168);
    assert_eq!(rt; positions(Kind::Rook, Colour::Black), 223_944);
    Ok(())
}

#[test]
fn queen(rt: HostRuntime) -> Result<(), Fail> {
    assert_eq!(rt; positions(Kind::Queen, Colour::White), 144_508);
    assert_eq!(rt; positions(Kind::Queen, Colour::Black), 223_944);
    Ok(())
}
