//! What the exit lines of a rules text, and of the tables behind it, rest on, line by line.
ghost use Rattle.std.specs.Prelude.{◌≡◌, ◌≤◌, ◌+◌, ◌*◌, ◌++◌, ◌∷◌, [], length, map, sum_by, IfOk, OnOk};
ghost use Rattle.frz_sets.specs.Sets.{size_of};
ghost use Rattle.frz_sets.specs.Sound.{IsSound};
ghost use Rattle.frz_rules.specs.Text.{rules_of};
ghost use Rattle.frz_atlas.specs.Loaded.{link_loaded};
ghost use Rattle.frz_premises.specs.Sides.{exits_tell};
ghost use Rattle.frz_commands_premises.specs.PremiseLines as words;
ghost use Rattle.frz_commands_premises.specs.PremiseLines.{behind_lines, belief_among, built_value, leans_over, lines_by, strength_over, text_link_loaded, text_lines};

use crate::line::Line;
use frz_atlas::{AtlasBook, BackTable, leans};
use frz_board::Colour;
use frz_exit_lines::exit_line_numbers;
use frz_exits::{ExitBook, RuleBook};
use frz_game::Game;
use frz_index::Set;
use frz_prelude::RulesText;
use frz_premises::{Basis, ExitValues, exit_values, premises_of, strength_of};
use frz_sets::Rules;
use frz_steps::Steps;
use std::alloc::{AllocError, Global};
use std::sync::ledger::Ledger;

/// Adds a line for each of these exit lines.
fn add_lines(lines: &mut Vec<Line>, numbers: &[u32], bases: &[Basis]) -> Result<(), AllocError>
    requires { length numbers.now ≡ length bases.now }
    ensures { OnOk result (lines.new.items ≡ lines.old.items ++ lines_by numbers.now bases.now) }
{
    for (i, number) in numbers.iter().enumerate() {
        lines.push(Line::Exit(*number, bases[i]))?;
    }
    Ok(())
}

/// Adds a line for each exit line of a text, which gives these rules and this set, with these
/// tables, on which it leans or not.
fn add_text<L: Ledger>(
    alloc: Global,
    lines: &mut Vec<Line>,
    leans: bool,
    text: &[u8],
    rules: &Rules,
    set: &Set,
    backs: &[BackTable],
    steps: &mut Steps<L>,
) -> Result<(), AllocError>
    requires read { rules_of text.now ≡ Ok rules.now }
    requires fits { set.now ≡ rules.now.groups }
    ensures added { OnOk result (lines.new.items ≡ lines.old.items
        ++ text_lines leans text.now rules.now (map link_loaded backs.now)) }
    ensures steps { steps.new ≤ steps.old + size_of rules.now.groups }
    ensures later { steps.old ≤ steps.new }
{
    let numbers = exit_line_numbers(alloc, text)?;
    let bases = premises_of(alloc, set, rules, leans, backs, steps)?;
    add_lines(lines, &numbers, &bases)
}

/// Adds the lines of the tables, each with those before it.
fn add_behind<L: Ledger>(
    alloc: Global,
    lines: &mut Vec<Line>,
    backs: &[BackTable],
    steps: &mut Steps<L>,
) -> Result<(), AllocError>
    ensures added { OnOk result (lines.new.items ≡ lines.old.items
        ++ behind_lines [] (map text_link_loaded backs.now)) }
    ensures steps { steps.new
        ≤ steps.old + sum_by (λ back. size_of back.table.rules.groups) backs.now }
    ensures later { steps.old ≤ steps.new }
{
    for (place, back) in backs.iter().enumerate() {
        lines.push(Line::Back(place))?;
        let table = &back.table;
        add_text(
            alloc,
            lines,
            leans(back),
            table.text(),
            table.rules(),
            table.set(),
            &backs[..place],
            steps,
        )?;
    }
    Ok(())
}

/// The lines of these tables: of each a line that names it by its place, and a line for each exit
/// line of its text, with the tables before it. The moves of each number are listed once.
pub fn lines_behind<L: Ledger>(
    alloc: Global,
    tables: &[BackTable],
    steps: &mut Steps<L>,
) -> Result<Vec<Line>, AllocError>
    ensures told { IfOk result (λ lines. lines.items
        ≡ behind_lines [] (map text_link_loaded tables.now)) }
    ensures steps { steps.new
        ≤ steps.old + sum_by (λ back. size_of back.table.rules.groups) tables.now }
    ensures later { steps.old ≤ steps.new }
{
    let mut lines = Vec::new(alloc);
    add_behind(alloc, &mut lines, tables, steps)?;
    Ok(lines)
}

/// Does the line tell of an exit line that is believed?
pub fn tells_belief(line: &Line) -> bool
    ensures { result ≡ words.tells_belief line.now }
{
    match line {
        Line::Exit(_, Basis::Believed(_)) => true,
        _ => false,
    }
}

/// How many of the lines tell of an exit line that is believed.
pub fn count_beliefs(lines: &[Line]) -> usize
    ensures { result ≡ belief_among lines.now }
{
    lines.iter().filter(|line| tells_belief(line)).count()
}

/// Do rules lean on these tables? With none they stand alone.
fn leans_on(backs: &[BackTable]) -> bool
    ensures { result ≡ leans_over (map link_loaded backs.now) }
{
    !backs.is_empty()
}

/// What the values of the exits are, by this book.
fn values_by<B: ExitBook, L: Ledger>(
    rules: &Rules,
    set: &Set,
    book: &B,
    steps: &mut Steps<L>,
) -> ExitValues
    requires fits { set.now ≡ rules.now.groups }
    ensures told { result ≡ exits_tell rules.now (B.value_at book.now) }
    ensures steps { steps.new ≤ steps.old + size_of rules.now.groups }
    ensures later { steps.old ≤ steps.new }
{
    exit_values(&Game { set, rules, book }, steps)
}

/// What the values of the exits are in the table that is built of the rules over these tables, a
/// plain one where there are none.
fn built_values<L: Ledger>(
    rules: &Rules,
    set: &Set,
    backs: &[BackTable],
    steps: &mut Steps<L>,
) -> ExitValues
    requires sound { IsSound rules.now }
    requires fits { set.now ≡ rules.now.groups }
    ensures told { result
        ≡ exits_tell rules.now (built_value rules.now (map link_loaded backs.now)) }
    ensures steps { steps.new ≤ steps.old + size_of rules.now.groups }
    ensures later { steps.old ≤ steps.new }
{
    if leans_on(backs) {
        values_by(rules, set, &AtlasBook::new(rules, backs), steps)
    } else {
        values_by(rules, set, &RuleBook::new(rules), steps)
    }
}

/// Adds what the bounds of each side are in chess, where so many exit lines are believed.
fn add_sides<L: Ledger>(
    lines: &mut Vec<Line>,
    rules: &Rules,
    set: &Set,
    backs: &[BackTable],
    believed: usize,
    steps: &mut Steps<L>,
) -> Result<(), AllocError>
    requires sound { IsSound rules.now }
    requires fits { set.now ≡ rules.now.groups }
    ensures added { let links = map link_loaded backs.now in
        OnOk result (lines.new.items ≡ lines.old.items
        ++ Line.Side Colour.White (strength_over rules.now links believed Colour.White)
        ∷ Line.Side Colour.Black (strength_over rules.now links believed Colour.Black) ∷ []) }
    ensures steps { steps.new ≤ steps.old + size_of rules.now.groups }
    ensures later { steps.old ≤ steps.new }
{
    let values = built_values(rules, set, backs, steps);
    let white = strength_of(rules, believed, values, Colour::White);
    lines.push(Line::Side(Colour::White, white))?;
    let black = strength_of(rules, believed, values, Colour::Black);
    lines.push(Line::Side(Colour::Black, black))?;
    Ok(())
}

/// All lines of the answer, by the rules that were read, which describe this set, and the tables
/// that were opened behind them. The moves of each number of a table are listed once, and those of
/// RULES twice.
pub fn premise_lines<L: Ledger>(
    alloc: Global,
    read: &RulesText,
    set: &Set,
    backs: &[BackTable],
    steps: &mut Steps<L>,
) -> Result<Vec<Line>, AllocError>
    requires read { rules_of read.now.text.items ≡ Ok read.now.rules }
    requires fits { set.now ≡ read.now.rules.groups }
    ensures told { IfOk result (λ lines. lines.items ≡ words.premise_lines read.now.text.items
        read.now.rules (map text_link_loaded backs.now)) }
    ensures steps { steps.new ≤ steps.old
        + (sum_by (λ back. size_of back.table.rules.groups) backs.now
        + 2 * size_of read.now.rules.groups) }
    ensures later { steps.old ≤ steps.new }
{
    let rules = &read.rules;
    let mut lines = Vec::new(alloc);
    add_behind(alloc, &mut lines, backs, steps)?;
    lines.push(Line::Rules)?;
    let leans = leans_on(backs);
    add_text(
        alloc, &mut lines, leans, &read.text, rules, set, backs, steps,
    )?;
    let believed = count_beliefs(&lines);
    lines.push(Line::Believed(believed))?;
    add_sides(&mut lines, rules, set, backs, believed, steps)?;
    Ok(lines)
}
