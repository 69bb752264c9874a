//! The command `sample K`: the tables of two kings and a rook anywhere, where the rook never moves
//! to the square K, solved, checked and counted in memory.
ghost use Rattle.std.specs.Prelude.{◌≡◌, ◌+◌, ◌*◌, ◌≤◌, IfOk, Ok, map};
ghost use Rattle.std.specs.String.{string_bytes};
ghost use Rattle.frz_board.specs.declared.man.Colour.TheVariants.{White, Black};
ghost use Rattle.frz_words.specs.Numbers.{number_of};
ghost use Rattle.frz_rules.specs.Text.{rules_of};
ghost use Rattle.frz_sets.specs.Sets.{size_of};
ghost use Rattle.frz_sets.specs.Sound.{IsSound};
ghost use Rattle.frz_game.specs.Bounds.{IsTableOf};
ghost use Rattle.frz_store.specs.Told.{StoreTold, SourceTold, sink_of};
ghost use Rattle.frz_answer.specs.World.{world};
ghost use Rattle.frz_answer.specs.Ends.{Ran};
ghost use Rattle.frz_commands_table.specs.Sampling as words;
ghost use Rattle.frz_commands_table.specs.Sampling.{sample_size, sampling, sampling_named, sample_words};

use crate::tallies::write_sample;
use frz_answer::{End, Fault, Refusal, Status, one_word, refuse, said, say};
use frz_board::{Colour, NoMemory, Square};
use frz_check::{Verdict, check_entries};
use frz_exits::{ExitBook, RuleBook};
use frz_game::laws::tables::tables;
use frz_game::{Game, Pair};
use frz_index::Set;
use frz_retro::Workshop;
use frz_rules::{RulesError, read_rules};
use frz_sets::Rules;
use frz_steps::Steps;
use frz_store::Sink;
use frz_words::read_number;
use std::alloc::{AllocError, Global};
use std::sync::ledger::Ledger;

/// The greatest K: K is the number of a square, 0 for a1 to 63 for h8.
pub const LAST_SQUARE: u32 = 63;

/// The rules text of the sample, which names the square `k`.
fn sample_text(alloc: Global, k: Square) -> Result<Vec<u8>, AllocError>
    ensures { IfOk result (λ text. text.items ≡ words.sample_text k) }
{
    let mut text = Vec::new(alloc);
    text.extend_from_slice(
        b"freezer 1\ngroup white 1 K:all\ngroup white 1 R:all\ngroup black 1 K:all\n\
        forbid white R from all to ",
    )?;
    text.push(b'a' + k.file())?;
    text.push(b'1' + k.rank())?;
    text.extend_from_slice(b"\nexit draw if count:white:R:0\n")?;
    Ok(text)
}

/// White's table, and a workshop that holds Black's: both are solved in it in turn, and checked.
fn checked_tables<B: ExitBook, L: Ledger>(
    alloc: Global,
    game: &Game<'_, B>,
    steps: &mut Steps<L>,
) -> Result<(Vec<u32>, Workshop), NoMemory>
    requires sound { IsSound game.now.rules.now }
    ensures white { IfOk result (λ both. IsTableOf game.now.rules.now
        (B.value_at game.now.book.now) White both.0.items) }
    ensures black { IfOk result (λ both. IsTableOf game.now.rules.now
        (B.value_at game.now.book.now) Black both.1) }
    ensures cost { steps.new ≤ steps.old + 5 * size_of game.now.rules.now.groups }
    ensures later { steps.old ≤ steps.new }
{
    tables();
    let mut workshop = Workshop::new(alloc, game.set.size())?;
    workshop.run_game(game, Colour::White, steps);
    let Ok(white) = workshop.entries().to_vec(alloc) else {
        return Err(NoMemory);
    };
    workshop.run_game(game, Colour::Black, steps);
    let both = Pair {
        white: &white,
        black: workshop.entries(),
    };
    match check_entries(game, &both, steps) {
        Verdict::Exact => Ok((white, workshop)),
        Verdict::Wrong(_) => unreachable!(),
    }
}

/// Solves and checks the tables of these rules, and writes how many codes of each kind they have.
fn sample_by<O: Sink, L: Ledger>(
    alloc: Global,
    k: Square,
    rules: &Rules,
    out: &mut O,
    steps: &mut Steps<L>,
) -> End
    requires read { rules_of (words.sample_text k) ≡ Ok rules.now }
    requires sound { IsSound rules.now }
    requires size { size_of rules.now.groups ≡ sample_size }
    ensures { (store : StoreTold) (input : SourceTold) → Ran (sampling k) result
        (world store input (sink_of O.Sink out.old) steps.old)
        (world store input (sink_of O.Sink out.new) steps.new) }
{
    let Ok(set) = Set::new(alloc, rules) else {
        return End::Stopped(Fault::NoMemory);
    };
    let game = Game {
        set: &set,
        rules,
        book: &RuleBook::new(rules),
    };
    match checked_tables(alloc, &game, steps) {
        Ok((white, black)) => said(
            Status::Success,
            write_sample(k, set.size(), &white, black.entries(), out),
        ),
        Err(_) => End::Stopped(Fault::NoMemory),
    }
}

/// Does the sample at the square `k`; its rules text is always accepted.
fn sample_at<O: Sink, L: Ledger>(alloc: Global, k: Square, out: &mut O, steps: &mut Steps<L>) -> End
    requires { k ≤ LAST_SQUARE }
    ensures { (store : StoreTold) (input : SourceTold) → Ran (sampling k) result
        (world store input (sink_of O.Sink out.old) steps.old)
        (world store input (sink_of O.Sink out.new) steps.new) }
{
    let Ok(text) = sample_text(alloc, k) else {
        return End::Stopped(Fault::NoMemory);
    };
    match read_rules(alloc, &text) {
        Ok(rules) => sample_by(alloc, k, &rules, out, steps),
        Err(RulesError::NoMemory) => End::Stopped(Fault::NoMemory),
        Err(RulesError::Bad(_)) => unreachable!(),
    }
}

/// Does the sample at the square whose number the word writes, or refuses the word.
fn sample_named<O: Sink, L: Ledger>(
    alloc: Global,
    word: &str,
    out: &mut O,
    steps: &mut Steps<L>,
) -> End
    ensures { (store : StoreTold) (input : SourceTold)
        → Ran (sampling_named (number_of word.now LAST_SQUARE)) result
        (world store input (sink_of O.Sink out.old) steps.old)
        (world store input (sink_of O.Sink out.new) steps.new) }
{
    match read_number(word.as_bytes(), LAST_SQUARE) {
        Some(k) => sample_at(alloc, Square::at(k as u8), out, steps),
        None => say(Status::Words, b"words: number\n", out),
    }
}

/// Runs the command `sample K`; `words` is K. It uses no file.
pub fn run_sample<O: Sink, L: Ledger>(
    alloc: Global,
    words: &[String],
    out: &mut O,
    steps: &mut Steps<L>,
) -> End
    ensures { (store : StoreTold) (input : SourceTold)
        → Ran (sample_words (map string_bytes words.now)) result
        (world store input (sink_of O.Sink out.old) steps.old)
        (world store input (sink_of O.Sink out.new) steps.new) }
{
    match one_word(words) {
        Some(word) => sample_named(alloc, word, out, steps),
        None => refuse(Refusal::Count, out),
    }
}
