//! Lines that a trace may not have, or not there.
use crate::row::check;
use std::alloc::Global;
use std::process::Abort;
use std::test::Fail;
use trace_rows::{BOOK, OPENING, RUN, Row, let_go, opening_with};

pub const ROWS: &[Row] = &[
    Row {
        name: "half a byte",
        changes: &[],
        lines: &["tick", "live 7 0"],
        book: &["refused 4 form"],
    },
    Row {
        name: "a channel twice",
        changes: &[],
        lines: &[
            "channel 7 ssrc 11223344 pt 33 rtx 99 server aabbccdd seq0 500 ring 64 window 0 access marker share 10000 reserve 1500 burst 4000 declared 100 minwire 42 limit 100 idle 100 clients 4",
        ],
        book: &["refused 3 twice"],
    },
    Row {
        name: "no end",
        changes: &[],
        lines: &[],
        book: &["refused 3 order"],
    },
    Row {
        name: "what follows the end",
        changes: &[],
        lines: &["end", "what"],
        book: &["done 0"],
    },
    // A line has at most 4,096 bytes.
    Row {
        name: "the longest line",
        changes: &[],
        lines: &["live 65 <2044>", "end"],
        book: &["1 65 no-channel", "done 1"],
    },
    Row {
        name: "a line too long",
        changes: &[],
        lines: &["live 655 <2044>", "end"],
        book: &["refused 3 form"],
    },
    Row {
        name: "depth and swell in version 1",
        changes: &[("clients 4", "clients 4 depth 0 swell 1400")],
        lines: &["end"],
        book: &["refused 2 order"],
    },
    Row {
        name: "neither depth nor swell in version 2",
        changes: &[("trace 1", "trace 2")],
        lines: &["end"],
        book: &["refused 2 order"],
    },
];

/// Heads, and why each is refused.
const HEADS: &[(&str, &str)] = &[
    ("", "order"),
    ("rams-trace 3 tick 10 link 1500\n", "form"),
    ("rams-trace 1 tick 0 link 1500\n", "range"),
    ("rams-trace 1 tick 1001 link 1500\n", "range"),
    ("rams-trace 1 tick 10 link 1499\n", "range"),
    ("tick\n", "order"),
    ("end\n", "order"),
];

/// A setting of the channel, what stands in its place, and why that is refused.
const SETTINGS: &[(&str, &str, &str)] = &[
    ("share 10000", "share 5499", "rule-3"),
    ("share 10000", "share 100001", "rule-4"),
    ("rtx 99", "rtx 33", "rule-1"),
    ("declared 100", "declared 2501", "rule-2"),
    ("channel 7", "channel 65536", "range"),
    ("ring 64", "ring 0", "range"),
    ("ring 64", "ring 32769", "range"),
    ("window 0", "window 65", "range"),
    ("minwire 42", "minwire 41", "range"),
    ("clients 4", "clients 1025", "range"),
    ("ring 64", "ring two", "form"),
    ("access marker", "access all", "form"),
];

/// Lines behind the opening, which is lines 1 and 2, and why each is refused.
const LINES: &[(&str, &str)] = &[
    ("hello", "form"),
    ("", "form"),
    ("tick ", "form"),
    ("live 7  8021000a0000000011223344", "form"),
    ("live 7 8021000A0000000011223344", "form"),
    ("live 07 80", "form"),
    ("tuned 7", "form"),
    ("channel", "form"),
    ("tune 7 5", "form"),
    ("rams-trace 1 tick 0 link 1500", "order"),
    ("live 0 80", "range"),
    ("live 65536 80", "range"),
    // a number has at most 15 digits
    ("live 999999999999999 80", "range"),
    ("live 1000000000000000 80", "form"),
    ("fb 7 281474976710656 80", "range"),
    // what a receiver does
    ("tune 7 5 0000c001", "order"),
    ("give 0", "order"),
    ("mcast 7 5 65546", "order"),
    ("ask 7 5", "order"),
    ("drop 7 5", "order"),
];

/// A trace is refused at a line, for this reason.
fn refuses(
    rt: &impl Abort,
    alloc: Global,
    trace: &str,
    number: u64,
    word: &str,
) -> Result<(), Fail> {
    let book = format!(in alloc; "{BOOK}refused {number} {word}\n")?;
    let checked = check(rt, alloc, RUN, trace, trace, &book);
    let_go(book);
    checked
}

/// The opening with another setting is refused at its second line.
fn refuses_setting(
    rt: &impl Abort,
    alloc: Global,
    change: (&str, &str),
    word: &str,
) -> Result<(), Fail> {
    let trace = opening_with(alloc, &[change])?;
    let refused = refuses(rt, alloc, &trace, 2, word);
    let_go(trace);
    refused
}

/// A line behind the opening is refused.
fn refuses_line(rt: &impl Abort, alloc: Global, line: &str, word: &str) -> Result<(), Fail> {
    let trace = format!(in alloc; "{OPENING}{line}\n")?;
    let refused = refuses(rt, alloc, &trace, 3, word);
    let_go(trace);
    refused
}

#[test]
fn refused_heads(rt: HostRuntime) -> Result<(), Fail> {
    for (trace, word) in HEADS {
        refuses(&rt, rt.alloc(), trace, 1, word)?;
    }
    Ok(())
}

#[test]
fn refused_settings(rt: HostRuntime) -> Result<(), Fail> {
    for (from, to, word) in SETTINGS {
        refuses_setting(&rt, rt.alloc(), (from, to), word)?;
    }
    Ok(())
}

#[test]
fn refused_lines(rt: HostRuntime) -> Result<(), Fail> {
    for (line, word) in LINES {
        refuses_line(&rt, rt.alloc(), line, word)?;
    }
    Ok(())
}
