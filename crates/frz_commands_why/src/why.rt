//! The command `why TABLE FEN SIDE BACK ..`: why the bound of a side is no better one, by the codes
//! of a table.
ghost use Rattle.std.specs.Prelude.{◌≡◌, ◌≤◌, ◌∷◌, ◌+◌, length, map, slice_index, false, Some, IsSome};
ghost use Rattle.std.specs.String.{string_bytes};
ghost use Rattle.frz_fide.specs.Valid.{IsValid};
ghost use Rattle.frz_fide.specs.Listing.{legal_moves_of};
ghost use Rattle.frz_board.specs.Boards.{Board};
ghost use Rattle.frz_board.specs.Men.{other_of};
ghost use Rattle.frz_sets.specs.Sound.{IsSound};
ghost use Rattle.frz_game.specs.Games.{graph_by};
ghost use Rattle.frz_game.specs.Numbers.{position_at};
ghost use Rattle.frz_backs.specs.FileOn.{loaded_back};
ghost use Rattle.frz_fen.specs.Reading.{fen_of};
ghost use Rattle.frz_store.specs.Told.{SourceTold, store_of, sink_of};
ghost use Rattle.frz_answer.specs.World.{world};
ghost use Rattle.frz_answer.specs.Ends.{Ran};
ghost use Rattle.frz_prelude.specs.Positions.{on_position};
ghost use Rattle.frz_atlas_prelude.specs.Names.{has_twice as is_twice};
ghost use Rattle.frz_atlas_prelude.specs.declared.names.TheConstants.{MOST_BACKS};
ghost use Rattle.frz_commands_line.specs.Sides.{on_side, side_of};
ghost use Rattle.frz_commands_why.specs.Asking.{asking_at, asking_named, why_words};
ghost use Rattle.frz_exit_lines.specs.Numbers.{exit_numbers_of};
ghost use Rattle.frz_commands_why.specs.Deciders.{decider_of};
ghost use Rattle.frz_commands_why.specs.Ending.{EndsIn, EndsLoaded, codes_loaded, stepping_in};
ghost use Rattle.frz_commands_why.specs.Telling.{EndsWhy, telling_steps};

use crate::decider::Deciding;
use crate::telling::tell_why;
use frz_answer::{End, Fault, refuse};
use frz_atlas_prelude::{Asked, asked_names, end_at, load_atlas};
use frz_backs::{AtlasBook, BackTable};
use frz_board::{Colour, Position};
use frz_commands_line::{read_side, refuse_side};
use frz_exit_lines::exit_line_numbers;
use frz_exits::{ExitBook, RuleBook};
use frz_fen::read_fen;
use frz_game::{Game, Pair};
use frz_prelude::{Refused, Stop, number_in, refuse_named};
use frz_reasons::laws::one_failing_way;
use frz_steps::Steps;
use frz_store::{Sink, Store};
use frz_table::FileKind;
use std::alloc::Global;
use std::sync::ledger::Ledger;

/// Tells by the codes of the table, where the book gives the values of positions outside its set.
fn tell_by<B: ExitBook, O: Sink, L: Ledger>(
    own: &BackTable,
    book: &B,
    deciding: &Deciding<'_>,
    side: Colour,
    number: u32,
    out: &mut O,
    steps: &mut Steps<L>,
) -> End
    requires sound { IsSound deciding.now.rules.now }
    requires inside { IsSome (position_at own.now.table.rules.groups number) }
    ensures told { EndsWhy own.now.table.rules (B.value_at book.now) side
        (codes_loaded own.now) (decider_of deciding.now.leans deciding.now.numbers.now deciding.now.rules.now
        (map loaded_back deciding.now.backs.now)) number result
        (sink_of O.Sink out.old) (sink_of O.Sink out.new) }
    ensures steps { steps.new ≤ steps.old + telling_steps
        (slice_index (codes_loaded own.now side) number)
        (slice_index (codes_loaded own.now (other_of side)) number)
        (length ((graph_by own.now.table.rules (B.value_at book.now)).arms number)) }
    ensures later { steps.old ≤ steps.new }
{
    let game = Game {
        set: own.table.set(),
        rules: own.table.rules(),
        book,
    };
    let entries = Pair {
        white: &own.white,
        black: &own.black,
    };
    tell_why(&game, &entries, deciding, side, number, out, steps)
}

/// Tells by the codes of the table. Where it leans on others, these are behind its exit lines, and
/// else none are.
fn tell_in<O: Sink, L: Ledger>(
    own: &BackTable,
    numbers: &[u32],
    backs: &[BackTable],
    side: Colour,
    number: u32,
    out: &mut O,
    steps: &mut Steps<L>,
) -> End
    requires numbers { numbers.now ≡ exit_numbers_of own.now.table.text }
    requires inside { IsSome (position_at own.now.table.rules.groups number) }
    ensures told { EndsLoaded own.now backs.now side number result
        (sink_of O.Sink out.old) (sink_of O.Sink out.new) }
    ensures steps { (p : Board) → position_at own.now.table.rules.groups number ≡ Some p →
        steps.new ≤ steps.old + telling_steps (slice_index (codes_loaded own.now side) number)
        (slice_index (codes_loaded own.now (other_of side)) number) (length (legal_moves_of p)) }
    ensures later { steps.old ≤ steps.new }
{
    let rules = own.table.rules();
    match own.table.kind() {
        FileKind::Atlas => {
            let book = AtlasBook::new(rules, backs);
            let deciding = Deciding {
                leans: true,
                rules,
                numbers,
                backs,
            };
            tell_by(own, &book, &deciding, side, number, out, steps)
        }
        _ => {
            let book = RuleBook::new(rules);
            let deciding = Deciding {
                leans: false,
                rules,
                numbers,
                backs,
            };
            tell_by(own, &book, &deciding, side, number, out, steps)
        }
    }
}

/// Tells why the bound of the side at the position is no better one, by the loaded tables. A
/// position outside the set is refused.
fn why_in<O: Sink, L: Ledger>(
    alloc: Global,
    own: &BackTable,
    backs: &[BackTable],
    side: Colour,
    p: &Position,
    out: &mut O,
    steps: &mut Steps<L>,
) -> End
    requires { IsValid p.now }
    ensures told { EndsIn own.now backs.now side p.now result
        (sink_of O.Sink out.old) (sink_of O.Sink out.new) }
    ensures steps { steps.new ≤ steps.old + stepping_in own.now side p.now }
    ensures later { steps.old ≤ steps.new }
{
    let number = match number_in(own.table.set(), p) {
        Ok(number) => number,
        Err(why) => return Stop::Refused(why).end(out),
    };
    // (that its text gives rules says how short it is)
    let _rules = own.table.rules();
    match exit_line_numbers(alloc, own.table.text()) {
        Ok(numbers) => tell_in(own, &numbers, backs, side, number, out, steps),
        Err(_) => End::Stopped(Fault::NoMemory),
    }
}

/// Opens and loads the tables of these names, no two of which are the same, and tells by them.
fn why_at<S: Store, O: Sink, L: Ledger>(
    alloc: Global,
    table: &str,
    behind: &[String],
    side: Colour,
    p: &Position,
    store: &mut S,
    out: &mut O,
    steps: &mut Steps<L>,
) -> End
    requires valid { IsValid p.now }
    requires apart { is_twice (table.now ∷ map string_bytes behind.now) ≡ false }
    requires few { length (map string_bytes behind.now) ≤ MOST_BACKS }
    ensures { (input : SourceTold)
        → Ran (asking_at table.now (map string_bytes behind.now) side p.now) result
        (world (store_of S.Store store.old) input (sink_of O.Sink out.old) steps.old)
        (world (store_of S.Store store.new) input (sink_of O.Sink out.new) steps.new) }
{
    one_failing_way();
    match load_atlas(alloc, store, table, behind) {
        Ok(loaded) => why_in(alloc, &loaded.table, &loaded.backs, side, p, out, steps),
        Err(fault) => end_at(fault, out),
    }
}

/// Tells of the position of the FEN, or refuses the FEN.
fn why_from<S: Store, O: Sink, L: Ledger>(
    alloc: Global,
    names: &Asked<'_>,
    side: Colour,
    store: &mut S,
    out: &mut O,
    steps: &mut Steps<L>,
) -> End
    requires apart { is_twice (names.now.table.now ∷ map string_bytes names.now.behind.now)
        ≡ false }
    requires few { length (map string_bytes names.now.behind.now) ≤ MOST_BACKS }
    ensures ran { (input : SourceTold) → Ran (on_position
        (asking_at names.now.table.now (map string_bytes names.now.behind.now) side)
        (fen_of names.now.fen.now)) result
        (world (store_of S.Store store.old) input (sink_of O.Sink out.old) steps.old)
        (world (store_of S.Store store.new) input (sink_of O.Sink out.new) steps.new) }
    ensures store_unused { (on_position
        (asking_at names.now.table.now (map string_bytes names.now.behind.now) side)
        (fen_of names.now.fen.now)).needs.store ≡ false → store.new ≡ store.old }
{
    match read_fen(names.fen.as_bytes()) {
        Ok(p) => why_at(
            alloc,
            names.table,
            names.behind,
            side,
            &p,
            store,
            out,
            steps,
        ),
        Err(fault) => refuse_named(Refused::Fen(fault), out),
    }
}

/// Tells of the side that the word names, or refuses the word.
fn why_for<S: Store, O: Sink, L: Ledger>(
    alloc: Global,
    names: &Asked<'_>,
    store: &mut S,
    out: &mut O,
    steps: &mut Steps<L>,
) -> End
    requires apart { is_twice (names.now.table.now ∷ map string_bytes names.now.behind.now)
        ≡ false }
    requires few { length (map string_bytes names.now.behind.now) ≤ MOST_BACKS }
    ensures ran { (input : SourceTold) → Ran (asking_named (record {
      table = names.now.table.now;
      fen = names.now.fen.now;
      side = names.now.side.now;
      behind = map string_bytes names.now.behind.now;
    })) result
        (world (store_of S.Store store.old) input (sink_of O.Sink out.old) steps.old)
        (world (store_of S.Store store.new) input (sink_of O.Sink out.new) steps.new) }
    ensures store_unused { (asking_named (record {
      table = names.now.table.now;
      fen = names.now.fen.now;
      side = names.now.side.now;
      behind = map string_bytes names.now.behind.now;
    })).needs.store ≡ false → store.new ≡ store.old }
{
    match read_side(names.side) {
        Some(side) => why_from(alloc, names, side, store, out, steps),
        None => refuse_side(out),
    }
}

/// Runs the command `why TABLE FEN SIDE [BACK]..`; `words` are TABLE, FEN, SIDE and 0 to 16
/// BACKs. Refuses a name that stands twice, before it reads a file. No code is checked but those on
/// the way.
pub fn run_why<S: Store, O: Sink, L: Ledger>(
    alloc: Global,
    words: &[String],
    store: &mut S,
    out: &mut O,
    steps: &mut Steps<L>,
) -> End
    ensures ran { (input : SourceTold) → Ran (why_words (map string_bytes words.now)) result
        (world (store_of S.Store store.old) input (sink_of O.Sink out.old) steps.old)
        (world (store_of S.Store store.new) input (sink_of O.Sink out.new) steps.new) }
    ensures store_unused { (why_words (map string_bytes words.now)).needs.store ≡ false
        → store.new ≡ store.old }
{
    match asked_names(words, 0) {
        Ok(names) => why_for(alloc, &names, store, out, steps),
        Err(why) => refuse(why, out),
    }
}
