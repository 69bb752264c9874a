//! Tables by planes: the verdicts on codes, and the file that is built.
ghost use Rattle.std.specs.Prelude.{◌≡◌, ◌<◌};
ghost use Rattle.frz_sets.specs.Sound.{IsSound};

use crate::expect::expect_holds;
use crate::sweeps::codes_of;
use crate::texts::{CROWD, FORBIDDEN, KNIGHTS, PROMOTING, ROOK, TARGET};
use frz_board::Colour;
use frz_check::{Verdict, check_entries};
use frz_exits::RuleBook;
use frz_game::{Game, Pair, Wrong};
use frz_index::Set;
use frz_plane_tables::{NewTable, build_by_planes, judge};
use frz_rules::read_rules;
use frz_steps::Steps;
use frz_store::MemStore;
use frz_table::FileKind;
use std::alloc::Global;
use std::marker::Brand;
use std::process::Abort;
use std::sync::ledger::{Blank, Ledger};
use std::test::Fail;
use test_tables::{no_fails, plain_file};

/// White's codes and Black's for the rook's text, and the verdict on them.
struct Row([u32; 8], [u32; 8], Verdict);

const ROWS: &[Row] = &[
    Row(
        [4, 4, 0, 0, 6, 5, 2, 2],
        [5, 5, 0, 0, 7, 7, 3, 3],
        Verdict::Exact,
    ),
    // A win that takes longer than it must.
    Row(
        [4, 4, 0, 0, 8, 5, 2, 2],
        [5, 5, 0, 0, 7, 7, 3, 3],
        Verdict::Wrong(Wrong {
            side: Colour::White,
            number: 4,
            kept: 8,
            given: 6,
        }),
    ),
    // White's codes are right.
    Row(
        [4, 4, 0, 0, 6, 5, 2, 2],
        [5, 5, 0, 0, 7, 7, 3, 1],
        Verdict::Wrong(Wrong {
            side: Colour::Black,
            number: 7,
            kept: 1,
            given: 3,
        }),
    ),
    // The lowest number is named first, and White at a number.
    Row(
        [4, 4, 9, 0, 6, 5, 2, 2],
        [5, 5, 1, 0, 7, 7, 3, 1],
        Verdict::Wrong(Wrong {
            side: Colour::White,
            number: 2,
            kept: 9,
            given: 0,
        }),
    ),
];

/// The verdicts on the codes of both sides: by planes, and number by number.
fn judge_twice<L: Ledger>(
    alloc: Global,
    game: &Game<'_, RuleBook<'_>>,
    white: &[u32],
    black: &[u32],
    steps: &mut Steps<L>,
) -> Result<(Verdict, Verdict), Fail>
    requires { IsSound game.now.rules.now }
{
    let size = game.set.size() as usize;
    if white.len() != size || black.len() != size {
        return Err(Fail::from("codes"));
    }
    let entries = Pair { white, black };
    let by_planes = judge(alloc, game, &entries, steps);
    Ok((by_planes, check_entries(game, &entries, steps)))
}

/// The same by the rules of the text.
fn verdicts<L: Ledger>(
    alloc: Global,
    text: &str,
    white: &[u32],
    black: &[u32],
    steps: &mut Steps<L>,
) -> Result<(Verdict, Verdict), Fail> {
    let rules = read_rules(alloc, text.as_bytes())?;
    let set = Set::new(alloc, &rules)?;
    let game = Game {
        set: &set,
        rules: &rules,
        book: &RuleBook::new(&rules),
    };
    judge_twice(alloc, &game, white, black, steps)
}

fn judge_by_hand<L: Ledger, R: Abort>(rt: &R, alloc: Global, blank: Blank) -> Result<(), Fail>
    requires name { blank.name ≡ L.name }
    requires parts { blank.parts ≡ L.parts }
    requires some { 0 < blank.parts }
{
    let mut steps = Steps::<L>::new(blank);
    for Row(white, black, wanted) in ROWS {
        let (by_planes, _) = verdicts(alloc, ROOK, white, black, &mut steps)?;
        expect_holds(rt, by_planes == *wanted, white);
    }
    Ok(())
}

#[test]
fn verdicts_by_hand(rt: HostRuntime) -> Result<(), Fail> {
    let blank = Blank::new(1);
    judge_by_hand::<Brand, _>(&rt, rt.alloc(), blank)
}

/// The file that is built of the text has these codes.
fn builds<L: Ledger>(
    alloc: Global,
    text: &str,
    white: &[u32],
    black: &[u32],
    steps: &mut Steps<L>,
) -> Result<bool, Fail> {
    if text.len() > 65_536 {
        return Err(Fail::from("text"));
    }
    let rules = read_rules(alloc, text.as_bytes())?;
    let mut store = MemStore::new(alloc, no_fails(alloc));
    let file = NewTable {
        name: "T",
        kind: FileKind::Plain,
        text: text.as_bytes(),
    };
    let book = RuleBook::new(&rules);
    build_by_planes(alloc, &rules, &book, &file, &mut store, steps)?;
    let mut codes = white.to_vec(alloc)?;
    codes.extend_from_slice(black)?;
    let wanted = plain_file(alloc, text.as_bytes(), &codes)?;
    Ok(store.file("T") == Some(wanted.as_slice()))
}

/// What the solver forwards finds is built by planes and judged exact, and with its last code
/// altered it is judged as number by number.
fn agrees<L: Ledger>(alloc: Global, text: &str, steps: &mut Steps<L>) -> Result<bool, Fail> {
    let white = codes_of(alloc, text, Colour::White, steps)?;
    let mut black = codes_of(alloc, text, Colour::Black, steps)?;
    let is_built = builds(alloc, text, &white, &black, steps)?;
    let (right, _) = verdicts(alloc, text, &white, &black, steps)?;
    let _last = black.pop();
    black.push(77)?;
    let (altered, wanted) = verdicts(alloc, text, &white, &black, steps)?;
    Ok(is_built && right == Verdict::Exact && altered == wanted && altered != Verdict::Exact)
}

/// Texts with few squares for kings, and with many.
const TEXTS: &[&str] = &[ROOK, FORBIDDEN, TARGET, KNIGHTS, PROMOTING, CROWD];

fn agree_on_texts<L: Ledger, R: Abort>(rt: &R, alloc: Global, blank: Blank) -> Result<(), Fail>
    requires name { blank.name ≡ L.name }
    requires parts { blank.parts ≡ L.parts }
    requires some { 0 < blank.parts }
{
    let mut steps = Steps::<L>::new(blank);
    for text in TEXTS {
        expect_holds(rt, agrees(alloc, text, &mut steps)?, text);
    }
    Ok(())
}

#[test]
fn agrees_with_the_solver_forwards(rt: HostRuntime) -> Result<(), Fail> {
    let blank = Blank::new(1);
    agree_on_texts::<Brand, _>(&rt, rt.alloc(), blank)
}
