//! How far a journal is read, whatever its pieces.
ghost use Rattle.std.specs.Prelude.{◌≤◌};
ghost use Rattle.takeover.specs.standby.{HasReadSome};

use crate::journals::{HEAD, JOURNAL, chained, follow};
use std::alloc::Global;
use std::process::Abort;
use std::rt::HostRuntime;
use std::test::Fail;
use takeover::standby::{FeedFault, LineFault, Standby};
use test_fixtures::test_calls::let_go;

/// A name, the front of a journal, the text behind it, and what is wanted.
type Row<T> = (&'static str, &'static str, &'static str, T);

/// So many events and whether `end` was read, or what is wrong.
type Outcome = Result<(u64, bool), FeedFault>;

/// What is read of a text behind the front of a journal: so many events, and whether `end` was read.
const READ: &[Row<(u64, bool)>] = &[
    ("nothing", "", "", (0, false)),
    ("a part of a line", JOURNAL, "ti", (2, false)),
    ("a line but its line feed", JOURNAL, "tick", (2, false)),
    ("a whole line", JOURNAL, "tick\n", (3, false)),
    ("`end` but its line feed", JOURNAL, "tick\nend", (3, false)),
    ("`end`", JOURNAL, "tick\nend\n", (3, true)),
    ("behind `end`", JOURNAL, "end\nno line\n", (2, true)),
];

/// The line that is refused of a text behind the front of a journal, and why.
const REFUSED: &[Row<(u64, LineFault)>] = &[
    ("no digits", HEAD, "live 7 0\n", (3, LineFault::Form)),
    ("no channel", "", "tick\n", (1, LineFault::Order)),
    ("a head again", HEAD, HEAD, (3, LineFault::Order)),
    ("number 0", HEAD, "live 0 -\n", (3, LineFault::Range)),
    ("a set-top", HEAD, "give 1\n", (3, LineFault::Order)),
];

/// So many events were done, and whether `end` was read; a fault is answered again.
fn outcome(alloc: Global, standby: &mut Standby, text: &[u8], size: usize) -> Outcome
    requires size { 1 ≤ size }
    requires read { HasReadSome standby.old }
{
    if follow(alloc, standby, text, size).is_err() {
        follow(alloc, standby, b"tick\n", size)?;
    }
    Ok((standby.events(), standby.ended()))
}

/// What a standby comes to that reads the text.
fn read(alloc: Global, text: &[u8], size: usize) -> Result<Outcome, Fail> {
    let Ok(mut standby) = Standby::new(alloc) else {
        return Err(Fail::new("no memory"));
    };
    let got = outcome(alloc, &mut standby, text, size.max(1));
    let_go(standby);
    Ok(got)
}

fn check(
    rt: &impl Abort,
    alloc: Global,
    row: (&str, &str, &str),
    want: &Outcome,
    size: usize,
) -> Result<(), Fail> {
    let (name, front, text) = row;
    let text = chained(alloc, front, text)?;
    let got = read(alloc, &text, size);
    let_go(text);
    assert!(rt; got? == *want, "{name}, in pieces of {size}");
    Ok(())
}

/// The same, in pieces of each size.
fn check_sizes(
    rt: &impl Abort,
    alloc: Global,
    row: (&str, &str, &str),
    want: &Outcome,
) -> Result<(), Fail> {
    for size in [1, 50, 5_000] {
        check(rt, alloc, row, want, size)?;
    }
    Ok(())
}

#[test]
fn journals_are_read_in_any_pieces(rt: HostRuntime) -> Result<(), Fail> {
    for (name, front, text, want) in READ {
        check_sizes(&rt, rt.alloc(), (name, front, text), &Ok(*want))?;
    }
    Ok(())
}

#[test]
fn lines_are_refused_in_any_pieces(rt: HostRuntime) -> Result<(), Fail> {
    for (name, front, text, (line, fault)) in REFUSED {
        let (line, fault) = (*line, *fault);
        let want = Err(FeedFault::Line { line, fault });
        check_sizes(&rt, rt.alloc(), (name, front, text), &want)?;
    }
    Ok(())
}

/// The front of a journal, and a line of so many bytes without a line feed.
fn with_long_line(alloc: Global, count: usize) -> Result<Vec<u8>, Fail> {
    let mut text = chained(alloc, HEAD, "")?;
    for _ in 0..count {
        text.push(b'a')?;
    }
    Ok(text)
}

/// What reading such a line comes to, in pieces of at most so many bytes.
fn long_line(alloc: Global, count: usize, size: usize) -> Result<Outcome, Fail> {
    let text = with_long_line(alloc, count)?;
    let got = read(alloc, &text, size);
    let_go(text);
    got
}

#[test]
fn a_line_is_too_long_from_4097_bytes_on(rt: HostRuntime) -> Result<(), Fail> {
    let fault = LineFault::Form;
    for size in [1, 1_000, 5_000] {
        let short = long_line(rt.alloc(), 4096, size)?;
        assert!(&rt; short == Ok((0, false)), "in pieces of {size}");
        let long = long_line(rt.alloc(), 4097, size)?;
        let want = Err(FeedFault::Line { line: 3, fault });
        assert!(&rt; long == want, "in pieces of {size}");
    }
    Ok(())
}
