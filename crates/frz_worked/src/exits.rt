//! Values of exits, and moves that rules allow.
use crate::boards::position;
use frz_board::Colour::{Black, White};
use frz_board::{Move, Position, Square};
use frz_exits::{ExitBook, RuleBook, allowed};
use frz_rules::read_rules;
use frz_sets::{Rules, Value};
use std::process::Abort;
use std::test::Fail;

#[test]
fn the_first_line_that_holds(rt: HostRuntime) -> Result<(), Fail> {
    let text = b"freezer 1\ngroup white 1 K:b6\ngroup white 1 R:h1\ngroup black 1 K:a8\n\
        exit draw if distance:white:h8:0-5\nexit black holds if check\n\
        exit white wins 7 if on:black:K:c8 !turn:white\nexit white wins if always\n";
    let q = position("Kb6 Rh1 kc8", Black, None).ok_or("a position")?;
    let rules = read_rules(rt.alloc(), text)?;
    let value = RuleBook::new(&rules).value(&q);
    assert!(rt; matches!(value, Value::WhiteWinsIn(7)));
    Ok(())
}

/// From e5 White may not go to d6, and may go to e6.
fn check_steps(rt: &impl Abort, rules: &Rules, p: &Position) {
    let capture = Move {
        from: Square::at(36),
        to: Square::at(43),
        promo: None,
    };
    let step = Move {
        from: Square::at(36),
        to: Square::at(44),
        promo: None,
    };
    assert!(rt; !allowed(rules, White, p, capture));
    assert!(rt; allowed(rules, White, p, step));
}

#[test]
fn en_passant_is_a_capture(rt: HostRuntime) -> Result<(), Fail> {
    let text = b"freezer 1\ngroup white 1 K:all\ngroup black 1 K:all\n\
        forbid white P from all to all capture\nforbid white K from a1 to b1\n";
    // the black pawn has just passed d6
    let p = position("Ka1 Pe5 kc1 pd5", White, Some(43)).ok_or("a position")?;
    let rules = read_rules(rt.alloc(), text)?;
    check_steps(&rt, &rules, &p);
    Ok(())
}
