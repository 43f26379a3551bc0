//! Compound datagrams that are cut.
use crate::row::check;
use std::alloc::{AllocError, Global};
use std::process::Abort;
use std::test::Fail;
use trace_rows::{ACCESS_POINT, BOOK, OPENING, REQUEST, RUN, let_go};

/// A receiver report (8 bytes), a description (16 bytes) and a request (16 bytes).
const COMPOUND: &str =
    "80c900010000c00181ca00030000c001010373746200000086cd00030000c0011122334401000000";

/// The fault of the first so many bytes of the compound datagram.
fn fault_of(length: usize) -> Option<&'static str> {
    match length {
        0 => Some("empty"),
        1..4 | 9..12 | 25..28 => Some("short"),
        8 | 24 => None,
        _ => Some("length"),
    }
}

/// The trace in which these bytes come.
fn trace_with(alloc: Global, cut: &str) -> Result<String, AllocError> {
    format!(in alloc; "{OPENING}{ACCESS_POINT}\nfb 7 5 {cut}\n{REQUEST}\ntick\nend\n")
}

/// The book's line of a fault, where there is one.
fn answer_of(alloc: Global, fault: Option<&str>) -> Result<String, AllocError> {
    match fault {
        Some(fault) => format!(in alloc; "2 7 bad-feedback 5 {fault}\n"),
        None => Ok(String::new(alloc)),
    }
}

/// The book of a trace in which such a datagram comes.
fn book_with(alloc: Global, fault: Option<&str>) -> Result<String, AllocError> {
    let answer = answer_of(alloc, fault)?;
    let book = format!(in alloc;
        "{BOOK}1 7 took 65546\n{answer}3 7 accept 5 first 65546 rate 4000 join 1\n4 7 burst 5 65546 500\ndone 4\n"
    );
    let_go(answer);
    book
}

/// The first bytes of a compound datagram are refused whole, or have no request, and change
/// nothing.
fn expect_cut_datagram(rt: &impl Abort, alloc: Global, length: usize) -> Result<(), Fail> {
    let cut = match COMPOUND.get(..length.saturating_mul(2)) {
        Some("") | None => "-",
        Some(digits) => digits,
    };
    let trace = trace_with(alloc, cut)?;
    let book = book_with(alloc, fault_of(length))?;
    let checked = check(rt, alloc, RUN, cut, &trace, &book);
    let_go(trace);
    let_go(book);
    checked
}

#[test]
fn cut_datagrams(rt: HostRuntime) -> Result<(), Fail> {
    for length in 0..COMPOUND.len() / 2 {
        expect_cut_datagram(&rt, rt.alloc(), length)?;
    }
    Ok(())
}
