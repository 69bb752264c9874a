//! Reads a line behind the header: the rules with it, or the cause for which it is refused.
ghost use Rattle.std.specs.Prelude.{◌≡◌, ◌≤◌, true, length, IfOk};
ghost use Rattle.frz_words.specs.Words.{words};
ghost use Rattle.frz_rules.specs.Reading.{Reads, read_to, place as place_of, read_group, read_exit, group_words, forbid_words, exit_words};
ghost use Rattle.frz_rules.specs.Text.{add_group as with_group, add_forbid as with_forbid, add_exit as with_exit, begins_known, line_of};
ghost use Rattle.frz_rules.specs.declared.stop.LineError.TheVariants as refusals;

use crate::causes::group_cause;
use crate::fault::{LONGEST_TEXT, RulesCause};
use crate::forms::{exit_parts, forbid_parts, group_parts};
use crate::states::states;
use crate::stop::{Left, LineError, Stop};
use frz_sets::{Exit, Forbid, Group, MOST_CONDS, MOST_EXITS, MOST_FORBIDS, MOST_GROUPS, Rules};
use frz_words::{count_words, is_word, next_word};
use std::alloc::Global;

/// The place of the first word that does not fit, where these bytes are left of the line.
fn place(line: &[u8], left: &[u8]) -> RulesCause
    requires { length line.now ≤ LONGEST_TEXT }
    ensures { result ≡ place_of (length (words line.now)) (words left.now) }
{
    RulesCause::Word(count_words(line).saturating_sub(count_words(left)) as u32 + 1)
}

fn add_group(mut rules: Rules, g: Group) -> Result<Rules, LineError>
    requires { length rules.groups ≤ MOST_GROUPS }
    ensures read { Reads result (with_group rules g) }
    ensures few { IfOk result (λ r. length r.groups ≤ MOST_GROUPS) }
{
    match group_cause(&rules.groups, &g) {
        Some(cause) => Err(LineError::Cause(cause)),
        None => {
            rules.groups.push(g)?;
            Ok(rules)
        }
    }
}

fn add_forbid(mut rules: Rules, f: Forbid) -> Result<Rules, LineError>
    ensures read { Reads result (with_forbid rules f) }
    ensures groups { IfOk result (λ r. r.groups ≡ rules.groups) }
{
    if rules.forbids.len() >= MOST_FORBIDS {
        return Err(LineError::Cause(RulesCause::TooManyLines));
    }
    rules.forbids.push(f)?;
    Ok(rules)
}

fn add_exit(mut rules: Rules, e: Exit) -> Result<Rules, LineError>
    ensures read { Reads result (with_exit rules e) }
    ensures groups { IfOk result (λ r. r.groups ≡ rules.groups) }
{
    if rules.exits.len() >= MOST_EXITS || e.conds.len() > MOST_CONDS {
        return Err(LineError::Cause(RulesCause::TooManyLines));
    }
    rules.exits.push(e)?;
    Ok(rules)
}

/// The rules with a group line. `rest` is what follows its first word.
fn read_group_line(
    alloc: Global,
    rules: Rules,
    line: &[u8],
    rest: &[u8],
) -> Result<Rules, LineError>
    requires few { length rules.groups ≤ MOST_GROUPS }
    requires short { length line.now ≤ LONGEST_TEXT }
    ensures read { Reads result (read_to (λ r g. with_group r (read_group g)) rules
        (length (words line.now)) (group_words (words rest.now))) }
    ensures few { IfOk result (λ r. length r.groups ≤ MOST_GROUPS) }
{
    match group_parts(alloc, rest) {
        Err(Stop::Memory) => Err(LineError::Memory),
        Err(Stop::At(left)) => Err(LineError::Cause(place(line, left))),
        Ok((colour, (least, most), places)) => {
            let states = states(alloc, &places)?;
            add_group(
                rules,
                Group {
                    colour,
                    least,
                    most,
                    states,
                },
            )
        }
    }
}

fn read_forbid_line(rules: Rules, line: &[u8], rest: &[u8]) -> Result<Rules, LineError>
    requires few { length rules.groups ≤ MOST_GROUPS }
    requires short { length line.now ≤ LONGEST_TEXT }
    ensures read { Reads result (read_to with_forbid rules
        (length (words line.now)) (forbid_words (words rest.now))) }
    ensures few { IfOk result (λ r. length r.groups ≤ MOST_GROUPS) }
{
    match forbid_parts(rest) {
        Err(Left(left)) => Err(LineError::Cause(place(line, left))),
        Ok(f) => add_forbid(rules, f),
    }
}

fn read_exit_line(alloc: Global, rules: Rules, line: &[u8], rest: &[u8]) -> Result<Rules, LineError>
    requires few { length rules.groups ≤ MOST_GROUPS }
    requires short { length line.now ≤ LONGEST_TEXT }
    ensures read { Reads result (read_to (λ r e. with_exit r (read_exit e)) rules
        (length (words line.now)) (exit_words (words rest.now))) }
    ensures few { IfOk result (λ r. length r.groups ≤ MOST_GROUPS) }
{
    match exit_parts(alloc, rest) {
        Err(Stop::Memory) => Err(LineError::Memory),
        Err(Stop::At(left)) => Err(LineError::Cause(place(line, left))),
        Ok((value, conds)) => add_exit(rules, Exit { value, conds }),
    }
}

/// The rules with a line behind the header, or why the line is bad. A line without words adds
/// nothing.
pub fn read_line(alloc: Global, rules: Rules, line: &[u8]) -> Result<Rules, LineError>
    requires few { length rules.groups ≤ MOST_GROUPS }
    requires short { length line.now ≤ LONGEST_TEXT }
    ensures read { Reads result (line_of rules (words line.now)) }
    ensures memory { result ≡ Err refusals.Memory → begins_known (words line.now) ≡ true }
    ensures few { IfOk result (λ r. length r.groups ≤ MOST_GROUPS) }
{
    let Some((w, rest)) = next_word(line) else {
        return Ok(rules);
    };
    if is_word(w, b"group") {
        read_group_line(alloc, rules, line, rest)
    } else if is_word(w, b"forbid") {
        read_forbid_line(rules, line, rest)
    } else if is_word(w, b"exit") {
        read_exit_line(alloc, rules, line, rest)
    } else {
        Err(LineError::Cause(RulesCause::UnknownLine))
    }
}
