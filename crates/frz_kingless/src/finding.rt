//! The board of a configuration, made of its digits, and the kings' squares that groups know.

ghost use Rattle.std.specs.Prelude.{◌≡◌, ◌<◌, MatchOption, map, true};
ghost use Rattle.frz_planes.specs.Planes.{IsPlaneOf};
ghost use Rattle.frz_combinations.specs.MixedRadix.{digits, product};
ghost use Rattle.frz_sets.specs.Sets.{radix_of};
ghost use Rattle.frz_sets.specs.Sound.{IsSound};
ghost use Rattle.frz_index.specs.Candidates.{put_groups};
ghost use Rattle.frz_index.specs.FreeSquares.{are_groups_free};
ghost use Rattle.frz_configurations.specs.Configurations.{configuration_count, others};
ghost use Rattle.frz_kingless.specs.Boards.{are_known, HasNoPosition, IsBoardOf};

use frz_board::{Colour, Kind, Man};
use frz_configurations::Configurations;
use frz_fide::Bitboards;
use frz_index::Set;
use frz_planes::Plane;

fn king(colour: Colour) -> Man
    ensures { result ≡ record { colour = colour; kind = Kind.King } }
{
    Man {
        colour,
        kind: Kind::King,
    }
}

/// The pairs of squares on which groups have the kings.
pub fn known_pairs(set: &Set) -> Plane
    ensures { IsPlaneOf result (are_known set.now) }
{
    Plane::product(
        set.known_squares(king(Colour::White)),
        set.known_squares(king(Colour::Black)),
    )
}

/// Puts on the board the men that the digits of `number` stand for, one digit for each group without
/// kings. `whole` is how many such numbers there are. It stops at the first man whose square is not
/// empty, and answers `false`; it answers `true` if all could be put.
fn put_others(
    p: &mut Bitboards,
    set: &Set,
    configurations: &Configurations<'_>,
    whole: u32,
    number: u32,
) -> bool
    requires sound { IsSound configurations.now.rules.now }
    requires whole { whole ≡ product (map radix_of (others configurations.now.rules.now.groups)) }
    ensures free { let gs = others configurations.now.rules.now.groups in
        result ≡ are_groups_free gs (digits (map radix_of gs) number) p.old.cells }
    ensures put { let gs = others configurations.now.rules.now.groups in result ≡ true →
        p.new ≡ record p.old {
          cells = put_groups gs (digits (map radix_of gs) number) p.old.cells;
        } }
{
    let rules = configurations.rules;
    let mut weight = whole;
    let mut rest = number;
    for k in 0..rules.groups.len() {
        let group = &rules.groups[k];
        if let Some(radix) = configurations.other_radix(k) {
            weight /= radix;
            if !set.put_men(p, group, rest / weight) {
                return false;
            }
            rest %= weight;
        }
    }
    true
}

/// The board of the configuration. `None` if two of its men would stand on one square, and so none
/// of its numbers has a position.
pub fn board_of(
    set: &Set,
    configurations: &Configurations<'_>,
    configuration: u32,
) -> Option<Bitboards>
    requires sound { IsSound configurations.now.rules.now }
    requires set { set.now ≡ configurations.now.rules.now.groups }
    requires inside { configuration < configuration_count set.now }
    ensures { MatchOption result (HasNoPosition set.now configuration)
        (IsBoardOf set.now configuration) }
{
    let whole = configurations.whole();
    let (turn, ep) = set.turn_state(configuration / whole);
    let mut p = Bitboards::empty(turn, ep);
    let number = configuration % whole;
    if put_others(&mut p, set, configurations, whole, number) {
        Some(p)
    } else {
        None
    }
}
