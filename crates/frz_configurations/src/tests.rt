//! Numbers as sums, worked out by hand and beside those put together.

ghost use Rattle.std.specs.Prelude.{◌≡◌};
ghost use Rattle.frz_sets.specs.Sound.{IsSound};

use crate::shares::is_king_square;
use crate::{Configurations, Shares};
use frz_board::Colour::{Black, White};
use frz_board::Square;
use frz_rules::read_rules;
use std::test::Fail;

/// A number is 54 where Black is to move; plus 18 for each place of White's king, 6 for each choice
/// of pawns (none, e2, e3) and 3 for each place of Black's king, all counted from 0, and plus the
/// place of Black's rook. A configuration is 9 where Black is to move, plus 3 for each choice of
/// pawns and the place of the rook.
const TEXT: &str = "freezer 1
group white 1 K:a1,b1,c1
group white 0-1 P:e2,e3
group black 1 K:g8,h8
group black 1 R:a8,b8,c8
";

/// A configuration, the squares of both kings, and the number where groups have them there.
type Line = (u32, u8, u8, Option<u32>);

const LINES: &[Line] = &[
    (0, 0, 62, Some(0)),
    (0, 2, 63, Some(39)),
    (13, 1, 63, Some(82)),
    (17, 2, 62, Some(104)),
    (18, 0, 62, None),
    (0, 3, 62, None),
    (0, 0, 61, None),
];

/// The number by shares and the one put together, where groups have the kings on these squares.
fn both(
    shares: &Shares<'_>,
    configurations: &Configurations<'_>,
    configuration: u32,
    white: Square,
    black: Square,
) -> Option<(u32, u32)>
    requires sound { IsSound configurations.now.rules.now }
    requires same { shares.now.rules.now ≡ configurations.now.rules.now }
{
    if configuration < configurations.count()
        && is_king_square(configurations.rules, White, white)
        && is_king_square(configurations.rules, Black, black)
    {
        Some((
            shares.number(configuration, white, black),
            configurations.number(configuration, white, black),
        ))
    } else {
        None
    }
}

#[test]
fn sums_by_hand(rt: HostRuntime) -> Result<(), Fail> {
    let rules = read_rules(rt.alloc(), TEXT.as_bytes())?;
    let configurations = Configurations::new(rt.alloc(), &rules)?;
    let shares = Shares::new(rt.alloc(), &configurations)?;
    for (configuration, a, b, number) in LINES {
        let (Some(white), Some(black)) = (Square::new(*a), Square::new(*b)) else {
            continue;
        };
        assert_eq!(rt;
            both(&shares, &configurations, *configuration, white, black),
            number.map(|n| (n, n))
        );
    }
    Ok(())
}

#[test]
fn sums_of_all(rt: HostRuntime) -> Result<(), Fail> {
    let rules = read_rules(rt.alloc(), TEXT.as_bytes())?;
    let configurations = Configurations::new(rt.alloc(), &rules)?;
    let shares = Shares::new(rt.alloc(), &configurations)?;
    for configuration in 0..18 {
        for a in 0..3 {
            for b in 62..64 {
                let (white, black) = (Square::at(a), Square::at(b));
                let numbers = both(&shares, &configurations, configuration, white, black);
                assert_eq!(rt; numbers.map(|(sum, number)| sum == number), Some(true));
            }
        }
    }
    Ok(())
}
