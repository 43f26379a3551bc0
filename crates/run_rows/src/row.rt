//! How a row is run.
use rams_replay::Status;
use std::alloc::Global;
use std::fmt::Display;
use std::process::Abort;
use std::str;
use std::test::Fail;
use trace_rows::{Command, Row, WHOLE, book_of, let_go, ran, trace_of};

/// The value is the one that is wanted of this.
pub fn same<T: PartialEq, C: Display>(rt: &impl Abort, got: &T, want: &T, of: &C) {
    assert!(rt; *got == *want, "{of}");
}

/// How a run ends that writes this book.
fn end_of(book: &str) -> Status {
    if book.contains("\nrefused ") {
        Status::BadTrace
    } else {
        Status::Done
    }
}

fn is_datagram(line: &str) -> bool {
    line.contains(" send ")
}

/// A book has these lines, and no others but datagrams.
fn compare(rt: &impl Abort, name: &str, book: &str, wanted: &str) {
    let mut wanted = wanted.lines();
    let mut next = wanted.next();
    for line in book.lines() {
        if is_datagram(line) && !next.is_some_and(is_datagram) {
            continue;
        }
        same(rt, &Some(line), &next, &name);
        next = wanted.next();
    }
    same(rt, &None, &next, &name);
}

/// A text is a book that has these lines.
fn compare_text(rt: &impl Abort, name: &str, text: &[u8], wanted: &str) -> Result<(), Fail> {
    compare(rt, name, str::from_utf8(text)?, wanted);
    Ok(())
}

/// The run of a trace writes this book, but for datagrams that aren't wanted, and ends as it says.
pub fn check(
    rt: &impl Abort,
    alloc: Global,
    command: Command,
    name: &str,
    trace: &str,
    book: &str,
) -> Result<(), Fail> {
    let (status, text) = ran(alloc, command, trace.as_bytes(), WHOLE, WHOLE)?;
    let compared = compare_text(rt, name, &text, book);
    let_go(text);
    same(rt, &status, &end_of(book), &name);
    compared
}

/// A row's trace has its book.
pub fn check_row(rt: &impl Abort, alloc: Global, command: Command, row: &Row) -> Result<(), Fail> {
    let trace = trace_of(alloc, row)?;
    let book = book_of(alloc, command, row)?;
    let checked = check(rt, alloc, command, row.name, &trace, &book);
    let_go(trace);
    let_go(book);
    checked
}
