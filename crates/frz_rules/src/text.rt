//! The reader of rules texts.
ghost use Rattle.std.specs.Prelude.{◌≡◌, ◌≤◌, ◌<◌, ◌∷◌, [], true, false, length, IfOk, IfSome, MatchOption};
ghost use Rattle.std.specs.List.{AllByRecursion};
ghost use Rattle.frz_words.specs.Words.{words};
ghost use Rattle.frz_sets.specs.Sound.{AreSoundLines, IsSound};
ghost use Rattle.frz_rules.specs.Text.{Answers, lines_of, begins_hash as begins_with_hash, is_skipped as is_skipped_line, significant, no_rules, is_header as is_header_line, whole as whole_of, first_known, may_want_memory, rules_of};
ghost use Rattle.frz_rules.specs.declared.fault.RulesError.TheVariants as errors;

use crate::causes::some_king_group;
use crate::fault::{LONGEST_TEXT, RulesCause, RulesError, RulesFault};
use crate::line::read_line;
use crate::stop::LineError;
use frz_board::Colour;
use frz_sets::{MOST_NUMBERS, Rules, set_size};
use frz_words::{Line, Lines, is_word, next_word};
use std::alloc::Global;

fn begins_hash(w: &[u8]) -> bool
    ensures { result ≡ begins_with_hash w.now }
{
    matches!(w, [b'#', ..])
}

/// Has the line no words, or is it a comment?
fn is_skipped(line: &[u8]) -> bool
    ensures { result ≡ is_skipped_line (words line.now) }
{
    match next_word(line) {
        None => true,
        Some((w, _)) => begins_hash(w),
    }
}

fn is_header(line: &[u8]) -> bool
    ensures { result ≡ is_header_line (words line.now) }
{
    let Some((name, rest)) = next_word(line) else {
        return false;
    };
    let Some((version, rest)) = next_word(rest) else {
        return false;
    };
    match next_word(rest) {
        None => is_word(name, b"freezer") && is_word(version, b"1"),
        Some(_) => false,
    }
}

/// The next line that has words and is no comment, or `None` at the end of the text.
fn next_line<'a>(lines: &mut Lines<'a>) -> Option<Line<'a>>
    requires { AllByRecursion (λ l. length l.1 ≤ LONGEST_TEXT) lines.old }
    ensures next { MatchOption result (significant lines.old ≡ [])
        (λ l. significant lines.old ≡ (l.number, words l.text.now) ∷ significant lines.new) }
    ensures counts { IfSome result (λ l. is_skipped_line (words l.text.now) ≡ false) }
    ensures shorter { IfSome result (λ l. length lines.new < length lines.old) }
    ensures short { IfSome result (λ l. length l.text.now ≤ LONGEST_TEXT) }
    ensures rest { AllByRecursion (λ l. length l.1 ≤ LONGEST_TEXT) lines.new }
{
    while let Some(line) = lines.next() {
        if !is_skipped(line.text) {
            return Some(line);
        }
    }
    None
}

fn fault(line: u32, cause: RulesCause) -> RulesError
    ensures { result ≡ RulesError.Bad (record { line = line; cause = cause }) }
{
    RulesError::Bad(RulesFault { line, cause })
}

/// The rules of the lines behind the header, or the first fault there.
fn read_lines(alloc: Global, mut lines: Lines<'_>) -> Result<Rules, RulesError>
    requires { AllByRecursion (λ l. length l.1 ≤ LONGEST_TEXT) lines }
    ensures read { Answers result (lines_of no_rules (significant lines.entry)) }
    ensures memory { result ≡ Err errors.NoMemory → first_known (significant lines.entry) ≡ true }
{
    let mut rules = Rules {
        groups: Vec::new(alloc),
        forbids: Vec::new(alloc),
        exits: Vec::new(alloc),
    };
    while let Some(line) = next_line(&mut lines) {
        match read_line(alloc, rules, line.text) {
            Ok(more) => rules = more,
            Err(LineError::Memory) => return Err(RulesError::NoMemory),
            Err(LineError::Cause(cause)) => return Err(fault(line.number, cause)),
        }
    }
    Ok(rules)
}

/// The rules, if nothing is wrong with them as a whole: each colour has a group with kings, and the
/// set has at most [`MOST_NUMBERS`] numbers.
fn whole(rules: Rules) -> Result<Rules, RulesFault>
    requires { AreSoundLines rules }
    ensures { result ≡ whole_of rules }
{
    if !(some_king_group(&rules.groups, Colour::White)
        && some_king_group(&rules.groups, Colour::Black))
    {
        return Err(RulesFault {
            line: 0,
            cause: RulesCause::KingGroup,
        });
    }
    let size = set_size(&rules);
    if size > u64::from(MOST_NUMBERS) {
        return Err(RulesFault {
            line: 0,
            cause: RulesCause::SetTooBig(size),
        });
    }
    Ok(rules)
}

#[tactic(auto, unfolding(crate::specs::Text::rules_of))]
fn read_text(alloc: Global, text: &[u8]) -> Result<Rules, RulesError>
    ensures exact { Answers result (rules_of text.now) }
    ensures memory { result ≡ Err errors.NoMemory → may_want_memory text.now ≡ true }
{
    if text.len() > LONGEST_TEXT {
        return Err(fault(0, RulesCause::TooLong));
    }
    let mut lines = Lines::new(text);
    let Some(first) = next_line(&mut lines) else {
        return Err(fault(0, RulesCause::Header));
    };
    if !is_header(first.text) {
        return Err(fault(first.number, RulesCause::Header));
    }
    match read_lines(alloc, lines) {
        Err(e) => Err(e),
        Ok(rules) => whole(rules).map_err(|f| RulesError::Bad(f)),
    }
}

/// Reads a rules text. The answer is its rules, which are sound, or its first bad line with the
/// first cause there, or that memory ran out.
pub fn read_rules(alloc: Global, text: &[u8]) -> Result<Rules, RulesError>
    ensures exact { Answers result (rules_of text.now) }
    ensures sound { IfOk result IsSound }
    ensures memory { result ≡ Err errors.NoMemory → may_want_memory text.now ≡ true }
{
    read_text(alloc, text)
}
