//! The place of the first word with which a line has no form, at each kind of line.
use super::line_refused;
use frz_rules::RulesCause;
use std::alloc::Global;
use std::process::Abort;

/// A line, and the place of the word.
struct Stop<'a>(&'a [u8], u32);

fn stops(rt: &impl Abort, alloc: Global, rows: &[Stop]) {
    for Stop(line, place) in rows {
        line_refused(rt, alloc, line, RulesCause::Word(*place));
    }
}

const GROUP_LINES: &[Stop] = &[
    Stop(b"group", 2),
    Stop(b"group red 1 R:a1", 2),
    Stop(b"group White 1 R:a1", 2),
    Stop(b"group white\x00 1 R:a1", 2),
    Stop(b"group white", 3),
    Stop(b"group white 17 R:a1", 3),
    Stop(b"group white 1-2-3 R:a1", 3),
    Stop(b"group white 1- R:a1", 3),
    Stop(b"group white -1 R:a1", 3),
    Stop(b"group white +1 R:a1", 3),
    Stop(b"group white 999999999 R:a1", 3),
    Stop(b"group white 0000000001 R:a1", 3),
    Stop(b"group white 0-0000000001 R:a1", 3),
    Stop(b"group white 1\x80 R:a1", 3),
    Stop(b"group white 1", 4),
    Stop(b"group white 1 - 2 R:a1", 4),
    Stop(b"group white 1 R", 4),
    Stop(b"group white 1 R:", 4),
    Stop(b"group white 1 R: a1", 4),
    Stop(b"group white 1 r:a1", 4),
    Stop(b"group white 1 R:a1,", 4),
    Stop(b"group white 1 R:a1:a2", 4),
    Stop(b"group white 1 R:a1\x00", 4),
    Stop(b"group white 1 R:a1 X:a2", 5),
    Stop(b"group white 1 R:a1 R:b2-a1", 5),
    Stop(b"group white 1 R:a1 \xff", 5),
    Stop(b"group white 1 Q:a1 # a queen", 5),
];

#[test]
fn group_lines(rt: HostRuntime) {
    stops(&rt, rt.alloc(), GROUP_LINES);
}

const FORBID_LINES: &[Stop] = &[
    Stop(b"forbid", 2),
    Stop(b"forbid all K from all to all", 2),
    Stop(b"forbid white", 3),
    Stop(b"forbid white k from all to all", 3),
    Stop(b"forbid white KQ from all to all", 3),
    Stop(b"forbid white K", 4),
    Stop(b"forbid white K to all from all", 4),
    Stop(b"forbid white K from", 5),
    Stop(b"forbid white K from all,", 5),
    Stop(b"forbid white K from all", 6),
    Stop(b"forbid white K from all all to", 6),
    Stop(b"forbid white K from all To all", 6),
    Stop(b"forbid white K from all to", 7),
    Stop(b"forbid white K from all to h9", 7),
    Stop(b"forbid white K from all to all captures", 8),
    Stop(b"forbid white K from all to all capture promotion", 9),
    Stop(b"forbid white K from all to all promotion if", 9),
];

#[test]
fn forbid_lines(rt: HostRuntime) {
    stops(&rt, rt.alloc(), FORBID_LINES);
}

const VALUES_OF_EXIT_LINES: &[Stop] = &[
    Stop(b"exit", 2),
    Stop(b"exit if always", 2),
    Stop(b"exit WHITE wins if always", 2),
    Stop(b"exit white", 3),
    Stop(b"exit white loses if always", 3),
    Stop(b"exit draw", 3),
    Stop(b"exit draw always", 3),
    Stop(b"exit draw 3 if always", 3),
    Stop(b"exit unknown 3 if always", 3),
    Stop(b"exit unknown if", 4),
    Stop(b"exit draw if", 4),
    Stop(b"exit white holds", 4),
    Stop(b"exit white holds 3 if always", 4),
    Stop(b"exit white wins", 4),
    Stop(b"exit white wins always", 4),
    Stop(b"exit white wins 1001 if always", 4),
    Stop(b"exit white wins 000001001 if always", 4),
    Stop(b"exit white wins 999999999 if always", 4),
    Stop(b"exit white wins 0000000007 if always", 4),
    Stop(b"exit white wins if", 5),
    Stop(b"exit white wins 7", 5),
    Stop(b"exit white wins 7 7 if always", 5),
    Stop(b"exit white wins 7 if", 6),
];

#[test]
fn values_of_exit_lines(rt: HostRuntime) {
    stops(&rt, rt.alloc(), VALUES_OF_EXIT_LINES);
}

const CONDITIONS_OF_EXIT_LINES: &[Stop] = &[
    Stop(b"exit draw if !", 4),
    Stop(b"exit draw if ! check", 4),
    Stop(b"exit draw if !!check", 4),
    Stop(b"exit draw if Check", 4),
    Stop(b"exit draw if check:white", 4),
    Stop(b"exit draw if always:", 4),
    Stop(b"exit draw if turn", 4),
    Stop(b"exit draw if turn:", 4),
    Stop(b"exit draw if turn:white:black", 4),
    Stop(b"exit draw if count:white:P", 4),
    Stop(b"exit draw if count:white:p:1", 4),
    Stop(b"exit draw if count:white:P:17", 4),
    Stop(b"exit draw if count:white:P:4-3", 4),
    Stop(b"exit draw if count:white:P:0000000001", 4),
    Stop(b"exit draw if on:black:a1", 4),
    Stop(b"exit draw if on:black:K:", 4),
    Stop(b"exit draw if on:black:K:a1:a2", 4),
    Stop(b"exit draw if distance:white:e9:1", 4),
    Stop(b"exit draw if distance:white:e1-e2:1", 4),
    Stop(b"exit draw if distance:white:e1:3-2", 4),
    Stop(b"exit draw if always never", 5),
    Stop(b"exit black wins if check turn:white never", 7),
    Stop(b"exit white holds if always \xff\x00", 6),
    Stop(b"exit white wins 7 if always always all", 8),
];

#[test]
fn conditions_of_exit_lines(rt: HostRuntime) {
    stops(&rt, rt.alloc(), CONDITIONS_OF_EXIT_LINES);
}
