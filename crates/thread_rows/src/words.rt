//! The words of the command line.
use crate::fixtures::same;
use crate::run::{sink_of, status_of};
use ram_io::{MemSink, MemSource, Open};
use rams_replay::Status;
use std::alloc::Global;
use std::process::Abort;
use std::sync::Wait;
use std::test::Fail;
use std::thread::Threads;
use trace_rows::{RUN, STOP_ACROSS_THE_WRAP, book_of, let_go, trace_of};

/// Words, how they end, and whether the whole book is then written.
const CASES: &[(&[&str], Status, bool)] = &[
    (&[], Status::Words, false),
    (&["run", "x"], Status::Words, false),
    (&["run", "run"], Status::Words, false),
    (&["meet", "run"], Status::Words, false),
    (&["RUN"], Status::Words, false),
    (&[""], Status::Words, false),
    (&["run"], Status::Done, true),
];

/// The length of the whole book.
fn whole_length(alloc: Global) -> Result<usize, Fail> {
    let book = book_of(alloc, RUN, &STOP_ACROSS_THE_WRAP)?;
    let length = book.len();
    let_go(book);
    Ok(length)
}

/// The cases end so with this source and this sink, one after the other.
fn expect_cases(
    rt: &(impl Threads + Wait + Abort + Sync),
    alloc: Global,
    source: &mut MemSource,
    sink: &mut MemSink,
) -> Result<(), Fail> {
    let whole = whole_length(alloc)?;
    for (place, (words, status, is_whole)) in CASES.iter().enumerate() {
        let got = status_of(rt, alloc, words, source, sink, &Open)?;
        let length = if *is_whole { whole } else { 0 };
        same(rt, &(got, sink.held().len()), &(*status, length), &place);
    }
    Ok(())
}

/// Words of no form read and write nothing: `run` then finds the whole trace.
#[test]
fn words_of_no_form(rt: HostRuntime) -> Result<(), Fail> {
    let trace = trace_of(rt.alloc(), &STOP_ACROSS_THE_WRAP)?.into_bytes();
    let mut sink = sink_of(rt.alloc(), &[])?;
    let mut source = MemSource::new(trace, 4_096, Vec::new(rt.alloc()));
    let ended = expect_cases(&rt, rt.alloc(), &mut source, &mut sink);
    let_go(source);
    let_go(sink);
    ended
}
