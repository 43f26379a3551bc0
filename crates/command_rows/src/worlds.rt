//! Sources and sinks of `meet` that fail.
use crate::fixtures::same;
use rams_replay::Status;
use std::alloc::Global;
use std::process::Abort;
use std::test::Fail;
use trace_rows::{Calls, MEET, OPENING, WHOLE, let_go, ran};

/// Two deliveries of nothing, and their book.
const NOTHING: &str = "give 99\ngive 98\nend\n";

const NOTHING_BOOK: &str = "rams-world 1\n1 no-datagram 99\n2 no-datagram 98\ndone 2\n";

/// How the command ends over the opening and these, and how many bytes of the book are written, and no others.
fn front(
    rt: &impl Abort,
    alloc: Global,
    takes: Calls<'_>,
    puts: Calls<'_>,
) -> Result<(Status, usize), Fail> {
    let trace = format!(in alloc; "{OPENING}{NOTHING}")?;
    let ran = ran(alloc, MEET, trace.as_bytes(), takes, puts);
    let_go(trace);
    let (status, text) = ran?;
    assert!(rt; NOTHING_BOOK.as_bytes().starts_with(&text));
    let length = text.len();
    let_go(text);
    Ok((status, length))
}

/// A source that fails leaves a front of the book of the lines that were read.
#[test]
fn worlds_are_cut_off(rt: HostRuntime) -> Result<(), Fail> {
    for call in 0..OPENING.len() + NOTHING.len() {
        let fails = &[call as u64];
        let (status, length) = front(&rt, rt.alloc(), Calls { most: 1, fails }, WHOLE)?;
        same(&rt, &status, &Status::ReadFault, &call);
        let is_short = OPENING.len() <= call || length <= MEET.first.len();
        same(&rt, &is_short, &true, &call);
    }
    Ok(())
}

/// A sink that fails leaves a front of the book.
#[test]
fn books_of_worlds_are_cut_off(rt: HostRuntime) -> Result<(), Fail> {
    for call in 0..NOTHING_BOOK.len() {
        let fails = &[call as u64];
        let got = front(&rt, rt.alloc(), WHOLE, Calls { most: 1, fails })?;
        same(&rt, &got, &(Status::WriteFault, call), &call);
    }
    Ok(())
}
