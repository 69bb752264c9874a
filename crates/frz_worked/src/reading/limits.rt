//! Texts at the limits of the format are accepted.
use super::{A, SetSize, all_sized, read};
use crate::expect::expect_equal;
use frz_rules::{RulesCause, RulesError, RulesFault};
use frz_sets::{Exit, Value};
use std::alloc::Global;
use std::process::Abort;
use std::test::Fail;

const MOST: &[SetSize] = &[
    // 64 + 56 + 64 + 64 + 48 states beside the rook's of A, and no man: 8 * 297
    SetSize(
        &[A, b"group white 0-1 Q:all R:a1-g8 B:all N:all P:a2-h7\n"],
        2376,
    ),
    // 16 men of White
    SetSize(&[A, b"group white 14 N:a2-g3\n"], 8),
    // 16 men of Black
    SetSize(&[A, b"group black 15 N:a2-h3\n"], 128),
];

#[test]
fn most_of_each(rt: HostRuntime) {
    all_sized(&rt, rt.alloc(), MOST);
}

#[test]
fn eight_conditions(rt: HostRuntime) -> Result<(), Fail> {
    let line: &[u8] = b"exit draw if check check check check check check check !always\n";
    let rules = read(&rt, rt.alloc(), &[A, line]).ok().ok_or("rules")?;
    assert_eq!(rt; rules.exits.len(), 1);
    expect_equal(&rt, &rules.exits[0].conds.len(), &8, "conditions");
    Ok(())
}

const VALUES: &[Value] = &[
    Value::WhiteWins,
    Value::BlackWins,
    Value::Draw,
    Value::WhiteHolds,
    Value::BlackHolds,
    Value::Unknown,
    Value::WhiteWinsIn(7),
    Value::BlackWinsIn(777),
];

/// Have the exits these values, and are they as many?
pub(super) fn have_values(exits: &[Exit], values: &[Value]) -> bool {
    if exits.len() != values.len() {
        return false;
    }
    for (exit, value) in exits.iter().zip(values) {
        if exit.value != *value {
            return false;
        }
    }
    true
}

#[test]
fn every_form_of_a_value(rt: HostRuntime) -> Result<(), Fail> {
    let lines: &[u8] = b"exit white wins if check
exit black wins if check
exit draw if check
exit white holds if check
exit black holds if check
exit unknown if check
exit white wins 7 if check
exit black wins 777 if check
";
    let rules = read(&rt, rt.alloc(), &[A, lines]).ok().ok_or("rules")?;
    assert!(rt; have_values(&rules.exits, VALUES));
    Ok(())
}

fn check_text(rt: &impl Abort, alloc: Global, error: RulesError, text: &str) -> Result<(), Fail> {
    let given = format!(in alloc; "{}", error)?;
    expect_equal(rt, &given.as_str(), &text, "text");
    Ok(())
}

#[test]
fn texts_of_errors(rt: HostRuntime) -> Result<(), Fail> {
    let alloc = rt.alloc();
    let fault = RulesFault {
        line: 3,
        cause: RulesCause::Overlap,
    };
    let bad = RulesError::Bad(fault);
    check_text(&rt, alloc, bad, "the rules text is refused")?;
    check_text(&rt, alloc, RulesError::NoMemory, "out of memory")
}
