//! The tables of a small set by planes, worked out by hand.

use crate::solve_planes;
use frz_exits::RuleBook;
use frz_game::Game;
use frz_index::Set;
use frz_rules::read_rules;
use std::test::Fail;

/// A number is 4 where Black is to move, plus 2 where his king is on h8, plus 1 where the rook is on
/// e8, which then checks him.
const GROUPS: &str = "freezer 1
group white 1 K:g6
group black 1 K:g8,h8
group white 1 R:e1,e8
";

/// Further lines, and the codes of White and Black.
type Case = (&'static str, [u32; 8], [u32; 8]);

const CASES: &[Case] = &[
    // White mates on e8; from g8 the black king leaves to f8, of which nothing is known
    ("", [4, 0, 4, 0, 5, 2, 6, 2], [5, 0, 5, 0, 7, 3, 7, 3]),
    // f8 is a draw
    (
        "exit draw if on:black:K:f8\n",
        [4, 0, 4, 0, 1, 2, 6, 2],
        [5, 0, 5, 0, 1, 3, 7, 3],
    ),
    // f8 is a draw, but Black may not go there
    (
        "forbid black K from g8 to f8\nexit draw if on:black:K:f8\n",
        [4, 0, 4, 0, 1, 2, 6, 2],
        [5, 0, 5, 0, 7, 3, 7, 3],
    ),
    // White wins 3 plies after f8
    (
        "exit white wins 3 if on:black:K:f8\n",
        [4, 0, 4, 0, 10, 2, 6, 2],
        [5, 0, 5, 0, 7, 3, 7, 3],
    ),
];

#[test]
fn tables_by_hand(rt: HostRuntime) -> Result<(), Fail> {
    for (lines, white, black) in CASES {
        let mut text = String::new(rt.alloc());
        text.push_str(GROUPS)?;
        text.push_str(lines)?;
        let rules = read_rules(rt.alloc(), text.as_bytes())?;
        let set = Set::new(rt.alloc(), &rules)?;
        let book = RuleBook::new(&rules);
        let game = Game {
            set: &set,
            rules: &rules,
            book: &book,
        };
        let both = solve_planes(rt.alloc(), &game)?;
        assert_eq!(rt; both.white.as_slice(), white.as_slice());
        assert_eq!(rt; both.black.as_slice(), black.as_slice());
    }
    Ok(())
}
