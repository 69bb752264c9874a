//! The lines that tell how large the set of a rules text is, and what its table takes.
ghost use Rattle.std.specs.Prelude.{◌≡◌, ◌≤◌, length, map};
ghost use Rattle.frz_combinations.specs.MixedRadix.{product};
ghost use Rattle.frz_sets.specs.Sets.{radix_of};
ghost use Rattle.frz_sets.specs.Sound.{AreCounted, IsSound};
ghost use Rattle.frz_sets.specs.declared.limits.TheConstants.{MOST_NUMBERS};
ghost use Rattle.frz_rules.specs.declared.fault.TheConstants.{LONGEST_TEXT};
ghost use Rattle.frz_store.specs.Told.{sink_of};
ghost use Rattle.frz_answer.specs.Texts.{WroteText};
ghost use Rattle.frz_commands_atlas.specs.Sizing.{turns_line, group_line, group_lines_from, totals_text, size_text};

use frz_answer::{write_numbered, write_numbered_line};
use frz_sets::{Group, Rules, radix, set_size, target_count};
use frz_store::{Failed, Sink};

/// Writes how many turn states there are: White to move, Black to move, and one for each target
/// square of a capture en passant.
fn write_turns<O: Sink>(groups: &[Group], out: &mut O) -> Result<(), Failed>
    ensures { WroteText (turns_line groups.now) result
        (sink_of O.Sink out.old) (sink_of O.Sink out.new) }
{
    write_numbered_line(b"turns ", 2 + target_count(groups) as u64, out)
}

/// Writes how many choices of men and squares the group with this number allows.
fn write_group<O: Sink>(number: u64, choices: u64, out: &mut O) -> Result<(), Failed>
    ensures { WroteText (group_line number choices) result
        (sink_of O.Sink out.old) (sink_of O.Sink out.new) }
{
    write_numbered(b"group ", number, out)?;
    write_numbered_line(b" ", choices, out)
}

/// Writes a line for each group; groups are numbered from 1.
fn write_groups<O: Sink>(groups: &[Group], out: &mut O) -> Result<(), Failed>
    requires counted { AreCounted groups.now }
    requires few { product (map radix_of groups.now) ≤ MOST_NUMBERS }
    ensures { WroteText (group_lines_from 1 groups.now) result
        (sink_of O.Sink out.old) (sink_of O.Sink out.new) }
{
    for (i, g) in groups.iter().enumerate() {
        write_group(i as u64 + 1, radix(g), out)?;
    }
    Ok(())
}

/// Writes how many numbers the set has, how many bytes its table file takes with this text, and how
/// many bytes of memory the lists of a build take.
fn write_totals<O: Sink>(text: &[u8], numbers: u64, out: &mut O) -> Result<(), Failed>
    requires short { length text.now ≤ LONGEST_TEXT }
    requires few { numbers ≤ MOST_NUMBERS }
    ensures { WroteText (totals_text text.now numbers) result
        (sink_of O.Sink out.old) (sink_of O.Sink out.new) }
{
    write_numbered_line(b"numbers ", numbers, out)?;
    write_numbered_line(b"disk ", 16 + text.len() as u64 + 8 * numbers, out)?;
    write_numbered_line(b"memory ", 16 * numbers, out)
}

/// Writes how large the set of the rules of this text is, and what its table takes.
pub fn write_size<O: Sink>(text: &[u8], rules: &Rules, out: &mut O) -> Result<(), Failed>
    requires sound { IsSound rules.now }
    requires short { length text.now ≤ LONGEST_TEXT }
    ensures { WroteText (size_text text.now rules.now.groups) result
        (sink_of O.Sink out.old) (sink_of O.Sink out.new) }
{
    write_turns(&rules.groups, out)?;
    write_groups(&rules.groups, out)?;
    write_totals(text, set_size(rules), out)
}
